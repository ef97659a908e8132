// A step's inner answer: done with what was sent, or a refusal; and the document's number of each case.
#![tactic(auto)]

ghost use Rattle.std.specs.Prelude.{◌≡◌};
ghost use Rattle.answers.specs.Answers.{refusal_number, tag_number, TagFrom, number_of};

// Why a step is refused, by the numbers of document 01's list.
#[derive(Clone, Copy, Debug, PartialEq, Eq, Drop)]
pub enum Refusal {
    NoAction = 1,
    NotThere = 2,
    WrongPlace = 3,
    NotReady = 4,
    MustWait = 5,
    NoRoom = 6,
    WrongLength = 7,
    Unsound = 8,
    Unwanted = 9,
}

// What a message is, by the tags of document 01's table.
#[derive(Clone, Copy, Debug, PartialEq, Eq, Drop)]
pub enum Tag {
    Publish = 1,
    Published = 2,
    Transit = 3,
    Granted = 4,
    Denied = 5,
    Task = 6,
    Report = 7,
    Release = 8,
    GhostEnded = 9,
    CountDropped = 10,
    Dropped = 11,
}

// A number that is no tag.
#[derive(Clone, Copy, Debug, PartialEq, Eq, Drop)]
pub struct NoTag(pub u8);

// Done, with the tag of the message that was sent, or refused.
pub type Answer = Result<Option<Tag>, Refusal>;

impl From<Refusal> for u32 {
    ghost from_gives = { λ refusal number. number ≡ refusal_number refusal };

    fn from(refusal: Refusal) -> u32 {
        refusal as u32
    }
}

impl From<Tag> for u8 {
    ghost from_gives = { λ tag number. number ≡ tag_number tag };

    fn from(tag: Tag) -> u8 {
        tag as u8
    }
}

impl TryFrom<u8> for Tag {
    type Error = NoTag;

    ghost try_from_gives = { TagFrom };

    fn try_from(number: u8) -> Result<Self, NoTag> {
        match number {
            1 => Ok(Tag::Publish),
            2 => Ok(Tag::Published),
            3 => Ok(Tag::Transit),
            4 => Ok(Tag::Granted),
            5 => Ok(Tag::Denied),
            6 => Ok(Tag::Task),
            7 => Ok(Tag::Report),
            8 => Ok(Tag::Release),
            9 => Ok(Tag::GhostEnded),
            10 => Ok(Tag::CountDropped),
            11 => Ok(Tag::Dropped),
            _ => Err(NoTag(number)),
        }
    }
}

// The document's number of an answer: 0 is done.
pub fn number_of<A: Drop>(answer: Result<A, Refusal>) -> u32
    ensures { result ≡ number_of answer }
{
    match answer {
        Ok(_) => 0,
        Err(refusal) => refusal.into(),
    }
}
