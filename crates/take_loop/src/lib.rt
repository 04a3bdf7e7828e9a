// A voice takes a loop from the table: reads the slot, then sets its loop by a command set.
#![tactic(auto)]

ghost use Rattle.std.specs.Prelude.{◌≡◌};
ghost use Rattle.sound_commands.specs.Commands.{commands_answer};
ghost use Rattle.take_loop.specs.Taking.{loop_command_of, taken};

use loop_table::{LoopSlot, LoopTable};
use playback_position::{EndPosition, PlaybackPosition, Region};
use refusals::Refusal;
use sound_commands::{Commanded, Commands, LoopCommand, ResumeCommand};
use sound_state::StaticSound;

// The command set that sets a slot's loop, and nothing else.
fn loop_command(held: LoopSlot) -> Commands
    ensures { result ≡ loop_command_of held }
{
    Commands {
        playback_rate: None,
        loop_region: LoopCommand::Set(Region {
            start: PlaybackPosition::Samples(held.start as usize),
            end: EndPosition::Custom(PlaybackPosition::Samples(held.end as usize)),
        }),
        pause: false,
        resume: ResumeCommand::Keep,
        stop: false,
        seek_by: None,
        seek_to: None,
    }
}

pub fn take(
    table: LoopTable,
    slot: usize,
    voice: StaticSound,
    sound: &[f32],
) -> Result<Commanded, Refusal>
    ensures { commands_answer voice result ≡ taken sound.now table slot voice }
{
    let held = table.read(slot)?;
    sound_commands::on_start_processing(voice, sound, loop_command(held))
}
