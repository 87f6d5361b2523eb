// A PAT0 entry: pattern animations. A slice that is read here starts at the entry.
#![tactic(auto)]

ghost use Rattle.std.specs.Prelude.{[], ◌∷◌, ◌≡◌, ◌+◌, ◌*◌, ◌/◌, min, ◌<◌, ◌≤◌, ltb, length, take, drop};
ghost use Rattle.util.specs.View.{view};
ghost use Rattle.util.specs.Reader.{run, each};
ghost use Rattle.util.specs.ReaderCode.{IsRead, outcome, tally_of, tallied};
ghost use Rattle.util.specs.Sums.{total};
ghost use Rattle.pattern.specs.Pattern.{Key, key_count, key_of, inside, track, pattern, first_later, choice, keys_of};
ghost use Rattle.pattern.specs.PatternCode.{key_means, keys_at, ListedAt, WholePattern, KeyIs};

use info_block::name::find_name;
use info_block::{InfoBlock, read};
use util::bits::bits;
use util::cur::{Tally, follow};
use util::refusal::Refusal;
use util::view::{byte, word16, word32};

// An index of the texture names.
#[derive(Clone, Copy, Debug, PartialEq, Eq)]
pub struct TextureIdx(pub u8);

// An index of the palette names.
#[derive(Clone, Copy, Debug, PartialEq, Eq)]
pub struct PaletteIdx(pub u8);

#[derive(Clone, Copy, Debug, PartialEq, Eq)]
pub struct PatternKeyframe {
    pub frame: u16,
    pub texture_idx: TextureIdx,
    pub palette_idx: PaletteIdx,
}

// Where a list of names or keys stands, and how many it has.
#[derive(Clone, Copy)]
pub struct ItemList {
    pub place: usize,
    pub count: usize,
}

// What is known of a whole entry: its frames, its name lists, its tracks, its reach, and how many keys it has.
#[derive(Clone, Copy)]
pub struct Pattern {
    pub frames: u16,
    pub textures: ItemList,
    pub palettes: ItemList,
    pub block: InfoBlock,
    pub reach: usize,
    pub samples: u64,
}

// Key k of the keys at `place`.
fn key_at(s: &[u8], place: usize, k: usize) -> PatternKeyframe
    requires { place + 4 * k + 4 ≤ length s.now }
    ensures { key_means result ≡ key_of (take 4 (drop (place + 4 * k) s.now)) }
{
    let at = place + 4 * k;
    PatternKeyframe {
        frame: word16(s, at),
        texture_idx: TextureIdx(byte(s, at + 2)),
        palette_idx: PaletteIdx(byte(s, at + 3)),
    }
}

// Whether the index that is the highest of a word's three bytes is below `count`. The word is compared whole: of keys that are read whole the
// compiler tests eight at once, and with the index taken out of the word it reads single bytes.
fn index_below(word: u32, count: usize) -> bool
    requires { word < 16777216 }
    ensures { result ≡ ltb (word / 65536) count }
{
    // the first word past those whose index is below count; an index is a byte
    word < 65536 * count.min(256) as u32
}

// Whether the texture and the palette of key k stand in their own lists. The texture is the highest of the key's three low bytes, the
// palette of its three high ones. The counts are two numbers, as the reader of document 01 takes them: a struct of both is no plainer.
fn key_inside(s: &[u8], place: usize, k: usize, textures: usize, palettes: usize) -> bool
    requires { place + 4 * k + 4 ≤ length s.now }
    ensures { result ≡ inside textures palettes (key_of (take 4 (drop (place + 4 * k) s.now)) ∷ []) }
{
    let key = word32(s, place + 4 * k);
    index_below(bits(key, 0, 24), textures) & index_below(bits(key, 8, 32), palettes)
}

// Whether each key's texture and palette stand in their own lists. Every key is tested, so that no step waits for a branch.
pub fn keys_inside(s: &[u8], keys: ItemList, textures: usize, palettes: usize) -> bool
    requires { keys.place + 4 * keys.count ≤ length s.now }
    ensures { result ≡ inside textures palettes (keys_at s.now keys) }
{
    let mut all = true;
    for k in 0..keys.count {
        all &= key_inside(s, keys.place, k, textures, palettes);
    }
    all
}

// The keys of the track whose datum stands at `datum`.
pub fn read_track_keys(s: &[u8], datum: usize) -> ItemList
    requires { datum + 8 ≤ length s.now }
    ensures { ListedAt s.now (datum + 6) 4 datum result }
{
    ItemList {
        place: word16(s, datum + 6) as usize,
        count: word32(s, datum) as usize,
    }
}

// The track whose datum stands at `datum`, after parts that reach as far as `reach`: how far it reaches, and how many keys it has.
fn read_track(
    s: &[u8],
    datum: usize,
    textures: usize,
    palettes: usize,
    reach: usize,
) -> Result<Tally, Refusal>
    requires { datum + 8 ≤ length s.now }
    ensures { outcome tallied result ≡ tally_of key_count (run (track textures palettes (take 8 (drop datum s.now))) s.now reach) }
{
    let keys = read_track_keys(s, datum);
    let end = keys.place + 4 * keys.count;
    if s.len() < end {
        return Err(Refusal::TooShort);
    }
    if !keys_inside(s, keys, textures, palettes) {
        return Err(Refusal::KeyIndex);
    }
    Ok(Tally {
        reach: reach.max(end),
        samples: keys.count as u64,
    })
}

// The tracks of a block's datums, one after the other: how far they reach, and how many keys they have.
fn follow_tracks(
    s: &[u8],
    block: InfoBlock,
    textures: usize,
    palettes: usize,
    reach: usize,
) -> Result<Tally, Refusal>
    requires { (block.datums + 8 * block.count ≤ length s.now) × (block.count < 256) }
    ensures { outcome tallied result ≡ tally_of (total key_count) (run (each (track textures palettes) (view 8 (λ bs. bs) block.count (drop block.datums s.now))) s.now reach) }
{
    follow(block.count, reach, |i, far| {
        read_track(s, block.datums + 8 * i, textures, palettes, far)
    })
}

// The list of names whose count stands at c and whose offset at p.
fn read_names(s: &[u8], c: usize, p: usize) -> ItemList
    requires { (c + 1 ≤ length s.now) × (p + 2 ≤ length s.now) }
    ensures { ListedAt s.now p 1 c result }
{
    ItemList {
        place: word16(s, p) as usize,
        count: byte(s, c) as usize,
    }
}

// The entry that s starts with.
pub fn read_pattern(s: &[u8]) -> Result<Pattern, Refusal>
    ensures { IsRead (WholePattern s.now) (run pattern s.now 0) result }
{
    let n = s.len();
    if n < 12 {
        return Err(Refusal::TooShort);
    }
    let frames = word16(s, 4);
    let textures = read_names(s, 6, 8);
    let palettes = read_names(s, 7, 10);
    let texture_end = textures.place + 16 * textures.count;
    let palette_end = palettes.place + 16 * palettes.count;
    if n < texture_end {
        return Err(Refusal::TooShort);
    }
    if n < palette_end {
        return Err(Refusal::TooShort);
    }
    let block = read(s, 12, 8)?;
    // the header ends before the block does
    let start = texture_end.max(palette_end).max(block.end);
    let tracks = follow_tracks(s, block, textures.count, palettes.count, start)?;
    Ok(Pattern {
        frames,
        textures,
        palettes,
        block,
        reach: tracks.reach,
        samples: tracks.samples,
    })
}

// The index of the first key of a later frame, or how many keys there are if none is later.
fn first_later(s: &[u8], keys: ItemList, frame: u16) -> usize
    requires { keys.place + 4 * keys.count ≤ length s.now }
    ensures { (result ≡ first_later (keys_at s.now keys) frame) × (result ≤ keys.count) }
{
    // a search by `find` took a fifth longer
    for k in 0..keys.count {
        if frame < key_at(s, keys.place, k).frame {
            return k;
        }
    }
    keys.count
}

// The key that holds at a frame, of some keys: the one before the first of a later frame, which is key 0 if that is first.
pub fn sample(s: &[u8], keys: ItemList, frame: u16) -> PatternKeyframe
    requires { (keys.place + 4 * keys.count ≤ length s.now) × (1 ≤ keys.count) }
    ensures { (default : Key) → key_means result ≡ choice (keys_at s.now keys) default frame }
{
    key_at(s, keys.place, first_later(s, keys, frame).saturating_sub(1))
}

// What a name chooses at a frame in an entry that is whole, by the earliest track with this name: none where there is no such track, and of a
// track without keys no key.
pub fn find_key(
    s: &[u8],
    a: Pattern,
    name: &[u8; 16],
    frame: u16,
) -> Option<Option<PatternKeyframe>>
    requires { WholePattern s.now a }
    ensures { (w : WholePattern s.now a) → KeyIs (keys_of name.now w.held) frame result }
{
    let t = find_name(s, a.block.names, a.block.count, name)?;
    let keys = read_track_keys(s, a.block.datums + 8 * t);
    if keys.count == 0 {
        return Some(None);
    }
    Some(Some(sample(s, keys, frame)))
}
