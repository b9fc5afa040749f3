// The answer: eight fields; and the refusals, a case for each, with the number, place and other of each.
ghost use Rattle.std.specs.Prelude.{◌≡◌};
ghost use Rattle.model.specs.Answers.{refusal_number, refusal_place, refusal_other, refused_by};

// Why a model, its settings or a table is refused, in the order of document 01's numbers.
#[derive(Clone, Copy, PartialEq, Eq, Debug)]
pub enum Refusal {
    // 1: the text is malformed, first at this line, from 1; 0 if it is over 8,192 bytes.
    Malformed { line: u32 },
    // 2: columns, rows, r or the flit width out of range.
    BadMesh,
    // 3: F or G out of range.
    BadSettings,
    // 4: flows not 1 to 64, or the list of numbers not whole flows.
    BadList,
    // 5: source or target no node, or the two equal.
    BadNodes { flow: u32 },
    // 6: T, size or D out of range.
    BadTimes { flow: u32 },
    // 7: the occupancy above D.
    TooLong { flow: u32 },
    // 8: H above 16,777,216.
    LongHyper,
    // 9: more than 1,024 packets.
    ManyPackets,
    // 10: the table shorter than the packets.
    ShortTable,
    // 11: the time of this packet, the lowest such, outside its start range.
    Outside { packet: u32 },
    // 12: this packet, the lowest such, collides with a higher-numbered one, of which other is the lowest.
    Collision { packet: u32, other: u32 },
    // A caller's own, by any number and place: none of document 01's tests gives it.
    Own { number: u32, place: u32 },
}

// An answer: a field that its number does not name is 0.
// Kept: a number and 0, since document 01 names the eight fields, and `complete_search`, `ended_search`, `refused_writes_nothing` and
// `passed_is_each_replay` speak of the number.
#[derive(Clone, Copy, PartialEq, Eq, Debug, Default)]
pub struct Answer {
    pub number: u32,
    pub place: u32,
    pub other: u32,
    pub hyper: u32,
    pub packets: u32,
    pub passes: u32,
    pub tries: u64,
    pub skipped: u32,
}

impl Refusal {
    // Its number in document 01, or the caller's.
    #[tactic(auto, unfolding(crate::specs::Answers::refusal_number))]
    pub fn number(self) -> u32
        ensures { result ≡ refusal_number self }
    {
        match self {
            Refusal::Malformed { .. } => 1,
            Refusal::BadMesh => 2,
            Refusal::BadSettings => 3,
            Refusal::BadList => 4,
            Refusal::BadNodes { .. } => 5,
            Refusal::BadTimes { .. } => 6,
            Refusal::TooLong { .. } => 7,
            Refusal::LongHyper => 8,
            Refusal::ManyPackets => 9,
            Refusal::ShortTable => 10,
            Refusal::Outside { .. } => 11,
            Refusal::Collision { .. } => 12,
            Refusal::Own { number, .. } => number,
        }
    }

    // Its place: the line, the flow or the packet that it names, or 0; or the caller's.
    #[tactic(auto, unfolding(crate::specs::Answers::refusal_place))]
    pub fn place(self) -> u32
        ensures { result ≡ refusal_place self }
    {
        match self {
            Refusal::Malformed { line } => line,
            Refusal::BadNodes { flow } | Refusal::BadTimes { flow } | Refusal::TooLong { flow } =>
                flow,
            Refusal::Outside { packet } | Refusal::Collision { packet, .. } => packet,
            Refusal::Own { place, .. } => place,
            _ => 0,
        }
    }

    // The other packet of a collision, or 0.
    #[tactic(auto, unfolding(crate::specs::Answers::refusal_other))]
    pub fn other(self) -> u32
        ensures { result ≡ refusal_other self }
    {
        match self {
            Refusal::Collision { other, .. } => other,
            _ => 0,
        }
    }
}

// The answer of a refusal: its number, place and other.
impl From<Refusal> for Answer {
    ghost from_gives = { λ refusal answer. answer ≡ refused_by refusal };

    #[tactic(auto, unfolding(crate::specs::Answers::refused_by))]
    fn from(refusal: Refusal) -> Answer {
        Answer {
            number: refusal.number(),
            place: refusal.place(),
            other: refusal.other(),
            ..Answer::default()
        }
    }
}

// The answer of a refusal, by its conversion.
// Kept: docs/PROMISES.md names it, and the theorem `refused_determined` speaks of it.
pub fn refused(refusal: Refusal) -> Answer
    ensures { result ≡ refused_by refusal }
{
    refusal.into()
}
