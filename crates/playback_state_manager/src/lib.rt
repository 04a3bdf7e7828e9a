// The seven playback states: pause, resume, stop, and one change per block.
#![tactic(auto)]

ghost use Rattle.std.specs.Prelude.{◌≡◌, ◌<◌, MatchResult};
ghost use Rattle.playback_state_manager.specs.States.{
  number,
  advancing,
  unless_stopped,
  pausing,
  resuming,
  stopping,
  settled,
};
ghost use Rattle.playback_state_manager.specs.declared.PlaybackState.TheVariants.{Stopped};

#[derive(Clone, Copy, Debug, PartialEq, Eq)]
pub enum PlaybackState {
    Playing,
    Pausing,
    Paused,
    WaitingToResume,
    Resuming,
    Stopping,
    Stopped,
}

// The host's answer for a start or a waiting resume.
#[derive(Clone, Copy, Debug, PartialEq, Eq)]
pub enum StartAnswer {
    Waiting,
    Now,
    Never,
}

// A number that is no state's.
#[derive(Clone, Copy, Debug, PartialEq, Eq)]
pub struct UnknownState;

impl From<PlaybackState> for u32 {
    ghost from_gives = { λ state n. n ≡ number state };

    fn from(state: PlaybackState) -> u32 {
        match state {
            PlaybackState::Playing => 0,
            PlaybackState::Pausing => 1,
            PlaybackState::Paused => 2,
            PlaybackState::WaitingToResume => 3,
            PlaybackState::Resuming => 4,
            PlaybackState::Stopping => 5,
            PlaybackState::Stopped => 6,
        }
    }
}

impl TryFrom<u32> for PlaybackState {
    type Error = UnknownState;

    ghost try_from_gives = { λ n r. MatchResult r (λ state. number state ≡ n) (λ _. 6 < n) };

    fn try_from(n: u32) -> Result<PlaybackState, UnknownState> {
        match n {
            0 => Ok(PlaybackState::Playing),
            1 => Ok(PlaybackState::Pausing),
            2 => Ok(PlaybackState::Paused),
            3 => Ok(PlaybackState::WaitingToResume),
            4 => Ok(PlaybackState::Resuming),
            5 => Ok(PlaybackState::Stopping),
            6 => Ok(PlaybackState::Stopped),
            _ => Err(UnknownState),
        }
    }
}

impl PlaybackState {
    pub fn is_advancing(self) -> bool
        ensures { result ≡ advancing self }
    {
        matches!(
            self,
            PlaybackState::Playing
                | PlaybackState::Pausing
                | PlaybackState::Resuming
                | PlaybackState::Stopping
        )
    }

    // Pause, resume and stop are ignored in Stopped.
    fn unless_stopped(self, wanted: PlaybackState) -> PlaybackState
        ensures { result ≡ unless_stopped wanted self }
    {
        match self {
            PlaybackState::Stopped => self,
            _ => wanted,
        }
    }

    pub fn pause(self) -> PlaybackState
        ensures { result ≡ pausing self }
    {
        self.unless_stopped(PlaybackState::Pausing)
    }

    pub fn resume(self, waits: bool) -> PlaybackState
        ensures { result ≡ resuming waits self }
    {
        if waits {
            self.unless_stopped(PlaybackState::WaitingToResume)
        } else {
            self.unless_stopped(PlaybackState::Resuming)
        }
    }

    pub fn stop(self) -> PlaybackState
        ensures { result ≡ stopping self }
    {
        self.unless_stopped(PlaybackState::Stopping)
    }

    pub fn mark_as_stopped(self) -> PlaybackState
        ensures { result ≡ Stopped }
    {
        PlaybackState::Stopped
    }

    pub fn update(self, finished: bool, resume: StartAnswer) -> PlaybackState
        ensures { result ≡ settled finished resume self }
    {
        match self {
            PlaybackState::Pausing if finished => PlaybackState::Paused,
            PlaybackState::Resuming if finished => PlaybackState::Playing,
            PlaybackState::Stopping if finished => PlaybackState::Stopped,
            PlaybackState::WaitingToResume => match resume {
                StartAnswer::Waiting => self,
                StartAnswer::Now => PlaybackState::Resuming,
                StartAnswer::Never => PlaybackState::Stopped,
            },
            _ => self,
        }
    }
}
