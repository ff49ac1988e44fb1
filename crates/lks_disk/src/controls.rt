//! Which calls of a disk in memory fail or are cut off, and how many there were.
ghost use Rattle.std.specs.Prelude.{◌≡◌, ◌-◌, if◌then◌else◌};
ghost use Rattle.lks_disk.specs.Counts.{next_fails, raised};
ghost use Rattle.lks_disk.specs.Device.{HasCause, Fused, SameFuse};
ghost use Rattle.lks_disk.specs.Fuse.{choice_of, setting_of, tells_of, fuse_after, fate_of, answer_of, settled};
ghost use Rattle.lks_disk.specs.Fuse.{read_answer, after_read};

use crate::disks::DiskFail;

/// How a fuse was set: so many calls pass, and then the choice says what is left.
#[derive(Clone, Copy, PartialEq, Eq)]
pub struct Setting {
    pub calls: u32,
    pub choice: u64,
}

/// What cuts a disk off.
#[derive(Clone, Copy, PartialEq, Eq)]
pub enum Fuse {
    /// None is set. The last power cut ended one that was set like this.
    Unset { last: Setting },
    Set { left: u32, setting: Setting },
    Burned { setting: Setting },
}

impl Fuse {
    /// The fuse after a write or a sync.
    fn after(self) -> Fuse
        ensures { result ≡ fuse_after self }
    {
        match self {
            Fuse::Unset { last } => Fuse::Unset { last },
            Fuse::Set { left, setting } => {
                if left == 0 {
                    Fuse::Burned { setting }
                } else {
                    Fuse::Set {
                        left: left - 1,
                        setting,
                    }
                }
            }
            Fuse::Burned { setting } => Fuse::Burned { setting },
        }
    }
}

/// What becomes of a write or a sync.
#[derive(Clone, Copy, PartialEq, Eq)]
pub enum Fate {
    Passes,
    Fails,
    /// It burns the fuse: a write is done, a sync isn't, and the answer is `Cut`.
    Burns,
    /// It is cut off and does nothing.
    Ends,
}

/// The calls that fail, by number from 1, the counts so far, and the fuse.
#[derive(Drop)]
pub struct Control {
    pub fail: Vec<u32>,
    pub fail_reads: Vec<u32>,
    pub calls: u64,
    pub reads: u64,
    pub faults: u64,
    pub burns: u64,
    pub cuts: u64,
    pub fuse: Fuse,
}

impl Control {
    pub fn new(fail: Vec<u32>, fail_reads: Vec<u32>) -> Self
        ensures { result
            ≡ record {
              fail = fail;
              fail_reads = fail_reads;
              calls = 0;
              reads = 0;
              faults = 0;
              burns = 0;
              cuts = 0;
              fuse = Fuse.Unset (record { calls = 0; choice = 0 });
            } }
    {
        Control {
            fail,
            fail_reads,
            calls: 0,
            reads: 0,
            faults: 0,
            burns: 0,
            cuts: 0,
            fuse: Fuse::Unset {
                last: Setting {
                    calls: 0,
                    choice: 0,
                },
            },
        }
    }

    /// What becomes of the next write or sync, if there is memory for it.
    pub fn fate(&self) -> Fate
        ensures { result ≡ fate_of self.now }
    {
        let named = is_next(&self.fail, self.calls);
        match self.fuse {
            Fuse::Burned { .. } => Fate::Ends,
            Fuse::Set { left, .. } => {
                if left == 0 {
                    Fate::Burns
                } else {
                    by_name(named)
                }
            }
            Fuse::Unset { .. } => by_name(named),
        }
    }

    /// Counts a write or a sync, and answers it.
    pub fn settle(&mut self) -> Result<(), DiskFail>
        ensures answer { result ≡ answer_of (fate_of self.old) }
        ensures after { self.new ≡ settled (fate_of self.old) self.old }
        ensures cause { HasCause self.old.faults self.new.faults result }
        ensures fuse { Fused (tells_of self.old) (tells_of self.new) result }
    {
        let fate = self.fate();
        self.calls = self.calls.saturating_add(1);
        self.fuse = self.fuse.after();
        match fate {
            Fate::Passes => Ok(()),
            Fate::Fails => {
                self.faults = self.faults.saturating_add(1);
                Err(DiskFail::Failed)
            }
            Fate::Burns => {
                self.burns = self.burns.saturating_add(1);
                Err(DiskFail::Cut)
            }
            Fate::Ends => Err(DiskFail::Cut),
        }
    }

    /// Counts a read or a question for the length, and answers it.
    pub fn settle_read(&mut self) -> Result<(), DiskFail>
        ensures answer { result ≡ read_answer self.old.fuse (next_fails self.old.fail_reads.items self.old.reads) }
        ensures after { self.new ≡ after_read self.old result }
        ensures cause { HasCause self.old.faults self.new.faults result }
        ensures fuse { SameFuse (tells_of self.old) (tells_of self.new) result }
    {
        let named = is_next(&self.fail_reads, self.reads);
        self.reads = self.reads.saturating_add(1);
        match self.fuse {
            Fuse::Burned { .. } => Err(DiskFail::Cut),
            Fuse::Set { .. } | Fuse::Unset { .. } => {
                if named {
                    self.faults = self.faults.saturating_add(1);
                    return Err(DiskFail::Failed);
                }
                Ok(())
            }
        }
    }

    /// The fuse that a power cut ends, as it was set.
    fn setting(&self) -> Setting
        ensures { result ≡ setting_of self.now.fuse }
    {
        match self.fuse {
            Fuse::Unset { .. } => Setting {
                calls: 0,
                choice: 0,
            },
            Fuse::Set { setting, .. } | Fuse::Burned { setting } => setting,
        }
    }

    pub fn set_fuse(&mut self, setting: Setting)
        ensures { self.new ≡ record self.old { fuse = Fuse.Set setting.calls setting } }
    {
        self.fuse = Fuse::Set {
            left: setting.calls,
            setting,
        };
    }

    /// Ends the fuse, counts a power cut, and says which outcome it leaves.
    pub fn cut_power(&mut self) -> u64
        ensures choice { result ≡ choice_of self.old.fuse }
        ensures after { self.new
            ≡ record self.old { fuse = Fuse.Unset (setting_of self.old.fuse); cuts = raised self.old.cuts } }
    {
        let last = self.setting();
        self.fuse = Fuse::Unset { last };
        self.cuts = self.cuts.saturating_add(1);
        last.choice
    }
}

/// The call after so many is one of the numbers.
fn is_next(fail: &[u32], calls: u64) -> bool
    ensures { result ≡ next_fails fail.now calls }
{
    let next = calls.saturating_add(1);
    fail.iter().any(|number| u64::from(*number) == next)
}

fn by_name(named: bool) -> Fate
    ensures { result ≡ (if named then Fate.Fails else Fate.Passes) }
{
    if named { Fate::Fails } else { Fate::Passes }
}
