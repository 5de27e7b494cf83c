//! What lists of deeds on a cell tell of the least reader that clashes, so that lists can be told together.
ghost use Rattle.std.specs.Prelude.{◌≡◌};
ghost use Rattle.wg_check.specs.Digests.{one_access, stretched, one_stretch, met_in, left_by, followed, nothing, deed_digest, joined, reader_of, least_reader};

use crate::events::CellDeed;

/// Accesses with no barrier between them: whether a step writes, whether two do, the first reader,
/// and the first reader beside which another step of the stretch writes.
#[derive(Clone, Copy)]
pub struct Stretch {
    pub writes: bool,
    pub many: bool,
    pub first: Option<u64>,
    pub met: Option<u64>,
}

/// Whole stretches: the least reader that clashes where the last stretch before them that writes does
/// so by one step, or there is none; the same where it does so by two; and whether their own last
/// stretch that writes does so by two.
#[derive(Clone, Copy)]
pub struct Course {
    pub calm: Option<u64>,
    pub alarmed: Option<u64>,
    pub leaves: Option<bool>,
}

/// What deeds tell: one stretch, or with a barrier among them the first, those between, and the last.
#[derive(Clone, Copy)]
pub enum Digest {
    Open(Stretch),
    Parted(Stretch, Course, Stretch),
}

const NO_ACCESS: Stretch = Stretch {
    writes: false,
    many: false,
    first: None,
    met: None,
};

const NO_STRETCH: Course = Course {
    calm: None,
    alarmed: None,
    leaves: None,
};

impl Stretch {
    fn one(place: u64, reads: bool, writes: bool) -> Stretch
        ensures { result ≡ one_access place reads writes }
    {
        let first = if reads { Some(place) } else { None };
        Stretch {
            writes,
            many: false,
            first,
            met: None,
        }
    }

    /// The stretch of this one's accesses and then those of another.
    fn with(self, other: Stretch) -> Stretch
        ensures { result ≡ stretched self other }
    {
        let met = if other.writes { self.first } else { self.met };
        let met_behind = if self.writes { other.first } else { other.met };
        Stretch {
            writes: self.writes || other.writes,
            many: self.many || other.many || (self.writes && other.writes),
            first: self.first.or(other.first),
            met: met.or(met_behind),
        }
    }

    /// It alone, with a barrier before it and one behind it.
    fn alone(self) -> Course
        ensures { result ≡ one_stretch self }
    {
        let leaves = if self.writes { Some(self.many) } else { None };
        Course {
            calm: self.met,
            alarmed: self.first,
            leaves,
        }
    }
}

impl Course {
    fn met(self, alarm: bool) -> Option<u64>
        ensures { result ≡ met_in self alarm }
    {
        if alarm { self.alarmed } else { self.calm }
    }

    fn left(self, alarm: bool) -> bool
        ensures { result ≡ left_by self alarm }
    {
        match self.leaves {
            Some(many) => many,
            None => alarm,
        }
    }

    fn then(self, other: Course) -> Course
        ensures { result ≡ followed self other }
    {
        Course {
            calm: self.calm.or(other.met(self.left(false))),
            alarmed: self.alarmed.or(other.met(self.left(true))),
            leaves: other.leaves.or(self.leaves),
        }
    }

    /// The least reader that clashes where nothing stands before, the end last.
    fn reader(self) -> Option<Option<u64>>
        ensures { result ≡ reader_of self }
    {
        match self.calm {
            Some(reader) => Some(Some(reader)),
            None => { if self.left(false) { Some(None) } else { None } }
        }
    }
}

impl Digest {
    /// What no deeds tell.
    pub fn nothing() -> Digest
        ensures { result ≡ nothing }
    {
        Digest::Open(NO_ACCESS)
    }

    /// What one deed tells.
    pub fn one(deed: CellDeed) -> Digest
        ensures { result ≡ deed_digest deed }
    {
        match deed {
            CellDeed::Fence => Digest::Parted(NO_ACCESS, NO_STRETCH, NO_ACCESS),
            CellDeed::Act {
                place,
                reads,
                writes,
            } => Digest::Open(Stretch::one(place, reads, writes)),
        }
    }

    /// What deeds and then others tell.
    pub fn with(self, other: Digest) -> Digest
        ensures { result ≡ joined self other }
    {
        match (self, other) {
            (Digest::Open(stretch), Digest::Open(behind)) => Digest::Open(stretch.with(behind)),
            (Digest::Open(stretch), Digest::Parted(head, course, tail)) => {
                Digest::Parted(stretch.with(head), course, tail)
            }
            (Digest::Parted(head, course, tail), Digest::Open(behind)) => {
                Digest::Parted(head, course, tail.with(behind))
            }
            (Digest::Parted(head, course, tail), Digest::Parted(other_head, behind, last)) => {
                let middle = tail.with(other_head).alone();
                Digest::Parted(head, course.then(middle).then(behind), last)
            }
        }
    }

    /// The least reader that clashes, the end last.
    pub fn least_reader(self) -> Option<Option<u64>>
        ensures { result ≡ least_reader self }
    {
        match self {
            Digest::Open(stretch) => stretch.alone().reader(),
            Digest::Parted(head, course, tail) => {
                head.alone().then(course).then(tail.alone()).reader()
            }
        }
    }
}
