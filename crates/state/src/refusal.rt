// Why a call is refused, and the papers' number of each reason.
ghost use Rattle.std.specs.Prelude.{◌≡◌};
ghost use Rattle.state.specs.RefusalNumbers as N;

// Why a call is refused, in the order of the papers' numbers.
#[derive(Clone, Copy)]
pub enum Refusal {
    TableCut = 1,
    NoTable = 2,
    TableVersion = 3,
    TableCounts = 4,
    ProcessorByte = 5,
    EntryField = 6,
    EntryOrder = 7,
    NotWellFormed = 8,
    NoSuchKind = 9,
    NoSuchRank = 10,
    NoSuchObject = 11,
    JobActive = 12,
    JobIdle = 13,
    JobWaiting = 14,
    JobUnlocked = 15,
    NoRight = 16,
    LockHeld = 17,
    LockNotHeld = 18,
    NoSuchProcessor = 19,
    TableRoom = 20,
    WriteLockHeld = 21,
    PageRoom = 22,
    LoadRoom = 23,
    NoWriteLock = 24,
    NotCertified = 25,
    JobAsleep = 26,
    JobAwake = 27,
}

impl Refusal {
    // The papers' number.
    pub fn number(self) -> u8
        ensures { result ≡ N.number self }
    {
        self as u8
    }
}
