// The tests that lists must pass to be written, in order.
ghost use Rattle.std.specs.Prelude.{true, [], ◌≡◌, ◌*◌, ◌/◌, ◌<◌, ◌≤◌, length};
ghost use Rattle.pattern_section.specs.Written.{drawn, key_total};
ghost use Rattle.writing.specs.WritePattern.{chosen_inside, near, write_pattern};
ghost use Rattle.writing.specs.WritePattern as spec;
ghost use Rattle.writing.specs.WritingCode.{lists, writing_means};

use pattern::{ItemList, keys_inside};
use util::refusal::Refusal;
use util::view::word32;

// How many keys n tracks have.
fn key_total(tracks: &[u8], n: usize) -> usize
    requires { (n < 256) × (20 * n ≤ length tracks.now) }
    ensures { (result ≡ key_total (drawn n tracks.now)) × (result ≤ 4294967296 * n) }
{
    let mut sum: usize = 0;
    for i in 0..n {
        sum = sum + (word32(tracks, 20 * i + 16) as usize);
    }
    sum
}

// Whether the keys of n tracks, one track behind the other from `place` on, stand where a word of two bytes can point.
fn all_near(tracks: &[u8], n: usize, place: usize) -> bool
    requires { (n < 256) × (place < 65536) × (20 * n ≤ length tracks.now) }
    ensures { result ≡ near place (drawn n tracks.now) }
{
    let mut keys = place;
    for i in 0..n {
        if 65535 < keys {
            return false;
        }
        keys = keys + 4 * (word32(tracks, 20 * i + 16) as usize);
    }
    true
}

// Whether there are at most 255 whole names of each sort, and whole tracks.
fn few(textures: &[u8], palettes: &[u8], tracks: &[u8]) -> bool
    ensures { result ≡ spec.few (lists textures.now palettes.now tracks.now []) }
{
    (textures.len() / 16 <= 255) & ((palettes.len() / 16 <= 255) & (tracks.len() / 20 <= 255))
}

// Whether no bytes are left over, and the counts add up to the keys.
fn whole(textures: &[u8], palettes: &[u8], tracks: &[u8], keys: &[u8]) -> bool
    requires { length tracks.now / 20 < 256 }
    ensures { result ≡ spec.whole (lists textures.now palettes.now tracks.now keys.now) }
{
    let sum = key_total(tracks, tracks.len() / 20);
    (textures.len() == 16 * (textures.len() / 16))
        & ((palettes.len() == 16 * (palettes.len() / 16))
            & ((tracks.len() == 20 * (tracks.len() / 20)) & (keys.len() == 4 * sum)))
}

// The last tests, of lists that have passed the others: every offset fits its word, the size its own, and the section into `room` bytes.
fn check_size(
    textures: &[u8],
    palettes: &[u8],
    tracks: &[u8],
    keys: &[u8],
    room: usize,
) -> Result<usize, Refusal>
    requires { (spec.few (lists textures.now palettes.now tracks.now keys.now) ≡ true) × (spec.whole (lists textures.now palettes.now tracks.now keys.now) ≡ true) × (chosen_inside (lists textures.now palettes.now tracks.now keys.now) ≡ true) }
    ensures { writing_means result ≡ write_pattern (lists textures.now palettes.now tracks.now keys.now) room }
{
    let n = tracks.len() / 20;
    let place = 28 + 28 * n + textures.len() + palettes.len();
    let size = 48 + place + keys.len();
    if !(all_near(tracks, n, place) & (size <= 4294967295)) {
        return Err(Refusal::FarPlace);
    }
    if room < size {
        return Err(Refusal::SmallSlice);
    }
    Ok(size)
}

// How many bytes the section of these lists has, or why it cannot be written into `room` bytes.
pub fn check_lists(
    textures: &[u8],
    palettes: &[u8],
    tracks: &[u8],
    keys: &[u8],
    room: usize,
) -> Result<usize, Refusal>
    ensures { writing_means result ≡ write_pattern (lists textures.now palettes.now tracks.now keys.now) room }
{
    if !few(textures, palettes, tracks) {
        return Err(Refusal::ManyItems);
    }
    if !whole(textures, palettes, tracks, keys) {
        return Err(Refusal::NoSuchIndex);
    }
    let all = ItemList {
        place: 0,
        count: keys.len() / 4,
    };
    if !keys_inside(keys, all, textures.len() / 16, palettes.len() / 16) {
        return Err(Refusal::KeyIndex);
    }
    check_size(textures, palettes, tracks, keys, room)
}
