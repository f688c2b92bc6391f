ghost use Rattle.std.specs.Prelude.{◌≡◌, ◌≤◌, None, false};
ghost use Rattle.disk_memory.specs.Meters.{IsSteady, is_reached, fails_next, ticked, begun, keeps, crashed_meter};

use ring_types::{CutAt, Keep};

/// What a disk in memory counts. A count stays at its last value, 2^64 - 1.
#[derive(Clone, Copy)]
pub(crate) struct Meter {
    /// What the turn makes fail.
    pub(crate) setting: Option<CutAt>,
    /// The calls of the turn.
    pub(crate) calls: u64,
    /// Whether a crash has ended the turn's setting.
    pub(crate) ended: bool,
    /// The calls of all turns.
    pub(crate) made: u64,
    /// The calls that failed, in all turns.
    pub(crate) faults: u64,
    /// Those of the turns before this one.
    pub(crate) faults_before: u64,
}

impl Meter {
    pub(crate) fn new() -> Meter
        ensures state { result ≡ record { setting = None; calls = 0; ended = false; made = 0; faults = 0; faults_before = 0 } }
        ensures steady { IsSteady result }
    {
        Meter {
            setting: None,
            calls: 0,
            ended: false,
            made: 0,
            faults: 0,
            faults_before: 0,
        }
    }

    /// Whether the turn's setting has made a call fail.
    pub(crate) fn is_reached(&self) -> bool
        ensures { result ≡ is_reached self.now }
    {
        match self.setting {
            Some(CutAt::Stop { call, .. }) => 1 <= call && call <= self.calls,
            Some(CutAt::Fail { call }) => 1 <= call && call <= self.calls,
            None => false,
        }
    }

    /// Whether the next call fails.
    fn fails_next(&self) -> bool
        ensures { result ≡ fails_next self.now }
    {
        let number = self.calls.saturating_add(1);
        match self.setting {
            Some(CutAt::Stop { call, .. }) => 1 <= call && call <= number && !self.ended,
            Some(CutAt::Fail { call }) => self.calls < call && call <= number,
            None => false,
        }
    }

    /// Counts a call, and answers whether it fails.
    pub(crate) fn tick(&mut self) -> bool
        requires { IsSteady self.old }
        ensures fails { result ≡ fails_next self.old }
        ensures state { self.new ≡ ticked self.old }
        ensures steady { IsSteady self.new }
        ensures later { self.old.faults ≤ self.new.faults }
    {
        let fails = self.fails_next();
        self.calls = self.calls.saturating_add(1);
        self.made = self.made.saturating_add(1);
        if fails {
            self.faults = self.faults.saturating_add(1);
        }
        fails
    }

    /// Begins a turn.
    pub(crate) fn begin(&mut self, setting: Option<CutAt>)
        ensures state { self.new ≡ begun setting self.old }
        ensures steady { IsSteady self.new }
    {
        self.setting = setting;
        self.calls = 0;
        self.ended = false;
        self.faults_before = self.faults;
    }

    /// What a crash now keeps.
    pub(crate) fn keeps(&self) -> Keep
        ensures { result ≡ keeps self.now }
    {
        match self.setting {
            Some(CutAt::Stop { call, keep }) if 1 <= call && call <= self.calls && !self.ended =>
                keep,
            _ => Keep::Nothing,
        }
    }

    /// Ends a setting that has made a call fail.
    pub(crate) fn crash(&mut self)
        requires { IsSteady self.old }
        ensures state { self.new ≡ crashed_meter self.old }
        ensures steady { IsSteady self.new }
    {
        if self.is_reached() {
            self.ended = true;
        }
    }
}
