// The order of a job's words: which may come, by the last one's kind and by how much has been read.
ghost use Rattle.std.specs.Prelude.{◌≡◌, ◌&&◌, None, eqb, ltb};
ghost use Rattle.job.specs.Kinds.{number_of_kind, last_number};
ghost use Rattle.job.specs.Order.{is_whole, may_follow, payloads, is_full, last_of, refusal_of, worded, tested, advance, start, Fair};

use crate::kinds::Kind;
use crate::words::Word;
use refusal::Reason;

impl Kind {
    // Whether a word of this kind can end an anchor, or a subpath without one.
    #[tactic(auto, unfolding(crate::specs::Order::is_whole, crate::specs::Order::member))]
    fn is_whole(self) -> bool
        ensures { result ≡ is_whole (number_of_kind self) }
    {
        match self {
            Kind::Subpath | Kind::Y | Kind::InY | Kind::OutY | Kind::Radius => true,
            _ => false,
        }
    }

    // Whether a word of this kind may come after the last one, or first.
    #[tactic(auto, unfolding(crate::specs::Order::is_whole, crate::specs::Order::may_follow, crate::specs::Order::member, crate::specs::Order::after_in))]
    fn may_follow(self, last: Option<Kind>) -> bool
        ensures { result ≡ may_follow (last_number last) (number_of_kind self) }
    {
        let Some(last) = last else {
            return self == Kind::Head;
        };
        match self {
            Kind::Head => false,
            Kind::Subpath | Kind::End => last == Kind::Head || last.is_whole(),
            Kind::X => last.is_whole(),
            Kind::Y => last == Kind::X,
            Kind::InX => last == Kind::Y,
            Kind::InY => last == Kind::InX,
            Kind::OutX => matches!(last, Kind::Y | Kind::InY),
            Kind::OutY => last == Kind::OutX,
            Kind::Radius => matches!(last, Kind::Y | Kind::InY | Kind::OutY),
        }
    }

    // How many payloads, from 0 on, a word of this kind may have.
    #[tactic(auto, unfolding(crate::specs::Order::payloads))]
    fn payloads(self) -> u32
        ensures { result ≡ payloads self }
    {
        match self {
            Kind::Head => 3,
            Kind::Subpath => 2,
            Kind::End => 1,
            _ => 268435456,
        }
    }
}

// What has been read: the head's payload, the last word's kind (none before the first), the shape word of the subpath
// so far, and how many subpaths and anchors have begun.
#[derive(Clone, Copy, Debug, PartialEq, Eq, Hash)]
pub struct Seen {
    pub head: u32,
    pub last: Option<Kind>,
    pub shape: u32,
    pub subpaths: usize,
    pub anchors: usize,
}

impl Seen {
    // Nothing yet.
    pub fn start() -> Self
        ensures { result ≡ start }
    {
        Seen {
            head: 0,
            last: None,
            shape: 0,
            subpaths: 0,
            anchors: 0,
        }
    }

    // Whether the last word was the end word.
    pub fn is_ended(&self) -> bool
        ensures { result ≡ eqb (last_of self.now) 15 }
    {
        self.last == Some(Kind::End)
    }

    // Whether a word of this kind begins subpath 33 or anchor 513.
    #[tactic(auto, unfolding(crate::specs::Order::is_full))]
    fn is_full(&self, kind: Kind) -> bool
        ensures { result ≡ is_full self.now kind }
    {
        match kind {
            Kind::Subpath => self.subpaths >= 32,
            Kind::X => self.anchors >= 512,
            _ => false,
        }
    }

    // Whether a word may stand here: its kind in order, with a payload that is listed for it.
    fn takes(&self, word: Word) -> bool
        ensures { result ≡ (may_follow (last_of self.now) (number_of_kind word.kind) && ltb word.payload (payloads word.kind)) }
    {
        word.kind.may_follow(self.last) && word.payload < word.kind.payloads()
    }

    // Whether a word of this kind ends a job without a subpath.
    fn ends_empty(&self, kind: Kind) -> bool
        ensures { result ≡ (eqb (number_of_kind kind) 15 && eqb self.now.subpaths 0) }
    {
        kind == Kind::End && self.subpaths == 0
    }

    // A word of this kind and payload, whatever numbers they are, or why it is refused.
    #[tactic(auto, using(crate::proofs::Orders::unknown, crate::proofs::Orders::kind_back), unfolding(crate::specs::Order::unless, crate::specs::Order::refusal_of))]
    fn word(&self, kind: u32, payload: u32) -> Result<Word, Reason>
        ensures { result ≡ worded self.now kind payload }
    {
        if self.is_ended() {
            return Err(Reason::Unended);
        }
        let Ok(kind) = Kind::try_from(kind) else {
            return Err(Reason::Misplaced);
        };
        let word = Word { kind, payload };
        if !self.takes(word) {
            return Err(Reason::Misplaced);
        }
        if self.ends_empty(kind) {
            return Err(Reason::Empty);
        }
        if self.is_full(kind) {
            return Err(Reason::Full);
        }
        Ok(word)
    }

    // A word of a file by its kind and payload, or why it is refused.
    #[tactic(auto, unfolding(crate::specs::Order::tested))]
    pub fn test(&self, bits: u32) -> Result<Word, Reason>
        ensures { result ≡ tested self.now bits }
    {
        self.word(bits / 268435456, bits % 268435456)
    }

    // Reads one word more, which has passed its test.
    #[tactic(auto, unfolding(crate::specs::Order::advance, crate::specs::Order::count_subpath, crate::specs::Order::count_anchor, crate::specs::Order::shape_after, crate::specs::Order::head_after))]
    pub fn advance(&mut self, word: Word)
        requires fair { Fair self.old }
        requires passes { refusal_of self.old (number_of_kind word.kind) word.payload ≡ None }
        ensures { self.new ≡ advance self.old word.kind word.payload }
    {
        self.last = Some(word.kind);
        match word.kind {
            Kind::Head => self.head = word.payload,
            Kind::Subpath => {
                self.shape = word.payload << 31;
                self.subpaths += 1;
            }
            Kind::X => {
                self.shape += 1;
                self.anchors += 1;
            }
            _ => {}
        }
    }
}

// The refusal that a word of this kind and payload meets, whatever numbers they are; none where it is read.
#[tactic(auto, using(crate::proofs::Orders::unless_err))]
pub fn refusal_of(seen: Seen, kind: u32, payload: u32) -> Option<Reason>
    ensures { result ≡ refusal_of seen kind payload }
{
    seen.word(kind, payload).err()
}
