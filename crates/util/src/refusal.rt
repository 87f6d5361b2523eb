// Why something is refused.
ghost use Rattle.std.specs.Prelude.{◌≡◌};
ghost use Rattle.util.specs.RefusalCode.{number_of};

// The reasons, with document 01's numbers.
#[derive(Clone, Copy, Debug, PartialEq, Eq)]
pub enum Refusal {
    // the first four bytes are no stamp that the call takes
    WrongStamp = 1,
    // a part ends past the section
    TooShort = 2,
    // an info block's first byte is not 0
    BlockStart = 3,
    DatumSize = 4,
    AnimationStamp = 5,
    // an animation of no frames
    NoFrames = 6,
    // a list's start is not below its end
    ListFrames = 7,
    // a key's index is not below its count
    KeyIndex = 8,
    // an index past its list
    NoSuchIndex = 9,
    // an empty list, where one of its values is asked for
    EmptyList = 10,
    // a lent slice is too small
    SmallSlice = 11,
    ManyObjects = 12,
    // more bytes than a section may have
    LongSection = 13,
    // neither section has a track of this name
    NoSuchTrack = 14,
    // more names or tracks than a byte counts
    ManyItems = 15,
    // a place or a size does not fit its word
    FarPlace = 16,
    // no entry has been picked
    NothingPicked = 17,
}

impl From<Refusal> for u32 {
    ghost from_gives = { λ r n. n ≡ number_of r };

    fn from(r: Refusal) -> u32 {
        r as u32
    }
}
