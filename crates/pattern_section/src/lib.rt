// A PAT0 section of one entry, written into a slice part by part: each from `at` on, and it answers where the next one goes.
#![tactic(auto)]

ghost use mathlib.Core.List.{[], ◌∷◌, flatten};
ghost use Rattle.std.specs.Prelude.{◌≡◌, ◌+◌, ◌*◌, ◌<◌, ◌≤◌, length};
ghost use Rattle.std.proofs.lemmas.List.Edits.{sets};
ghost use Rattle.util.specs.View.{little_bytes};
ghost use Rattle.info_block.specs.InfoBlock.{block_bytes};
ghost use Rattle.pattern_section.specs.Written.{lent, datum, datums, drawn, names, entry_head, entry_length, entry_bytes, section_length, written};
ghost use Rattle.pattern_section.specs.WrittenCode.{Sized};

use info_block::put_head;
use util::view::{put_bytes, put_word, word32};

// The datum of a track of `count` keys that stand at `place`.
fn put_datum(out: &mut [u8], at: usize, count: u32, place: usize) -> usize
    requires { at + 8 ≤ length out.old }
    ensures { (result ≡ at + 8) × (out.new ≡ sets out.old at (datum count place)) }
{
    let a = put_word(out, at, 4, count as u64);
    let b = put_word(out, a, 2, 0);
    put_word(out, b, 2, place as u64)
}

// The datums of n tracks whose keys stand one behind the other, from `place` on.
fn put_datums(out: &mut [u8], at: usize, tracks: &[u8], n: usize, place: usize) -> usize
    requires { (n < 256) × (place < 65536) × (20 * n ≤ length tracks.now) × (at + 8 * n ≤ length out.old) }
    ensures { (result ≡ at + 8 * n) × (out.new ≡ sets out.old at (flatten (datums place (drawn n tracks.now)))) }
{
    let mut to = at;
    let mut keys = place;
    for i in 0..n {
        let count = word32(tracks, 20 * i + 16);
        to = put_datum(out, to, count, keys);
        keys = keys + 4 * (count as usize);
    }
    to
}

// The names of n tracks.
fn put_names(out: &mut [u8], at: usize, tracks: &[u8], n: usize) -> usize
    requires { (n < 256) × (20 * n ≤ length tracks.now) × (at + 16 * n ≤ length out.old) }
    ensures { (result ≡ at + 16 * n) × (out.new ≡ sets out.old at (flatten (names (drawn n tracks.now)))) }
{
    let mut to = at;
    for i in 0..n {
        to = put_bytes(out, to, &tracks[20 * i..20 * i + 16]);
    }
    to
}

// The info block of n tracks whose keys stand one behind the other, from `place` on.
fn put_tracks(out: &mut [u8], at: usize, tracks: &[u8], n: usize, place: usize) -> usize
    requires { (n < 256) × (place < 65536) × (20 * n ≤ length tracks.now) × (at + 16 + 28 * n ≤ length out.old) }
    ensures { (result ≡ at + 16 + 28 * n) × (out.new ≡ sets out.old at (block_bytes 8 (record { count = n; datums = datums place (drawn n tracks.now); names = names (drawn n tracks.now) }))) }
{
    let a = put_head(out, at, n, 8);
    let b = put_datums(out, a, tracks, n, place);
    put_names(out, b, tracks, n)
}

// An entry's fields before its info block.
fn put_entry_head(
    out: &mut [u8],
    at: usize,
    frames: u16,
    textures: usize,
    palettes: usize,
    texture_place: usize,
    palette_place: usize,
) -> usize
    requires { at + 12 ≤ length out.old }
    ensures { (result ≡ at + 12) × (out.new ≡ sets out.old at (flatten (entry_head frames textures palettes texture_place palette_place))) }
{
    let a = put_word(out, at, 4, 0);
    let b = put_word(out, a, 2, frames as u64);
    let c = put_word(out, b, 1, textures as u64);
    let d = put_word(out, c, 1, palettes as u64);
    let e = put_word(out, d, 2, texture_place as u64);
    put_word(out, e, 2, palette_place as u64)
}

// The entry: its head, its info block, its names and its keys.
fn put_entry(
    out: &mut [u8],
    at: usize,
    frames: u16,
    textures: &[u8],
    palettes: &[u8],
    tracks: &[u8],
    keys: &[u8],
) -> usize
    requires { Sized (lent [] frames textures.now palettes.now tracks.now keys.now) × (at + entry_length (lent [] frames textures.now palettes.now tracks.now keys.now) ≤ length out.old) }
    ensures { (result ≡ at + entry_length (lent [] frames textures.now palettes.now tracks.now keys.now)) × (out.new ≡ sets out.old at (entry_bytes (lent [] frames textures.now palettes.now tracks.now keys.now))) }
{
    let nt = textures.len() / 16;
    let np = palettes.len() / 16;
    let n = tracks.len() / 20;
    let texture_place = 28 + 28 * n;
    let palette_place = texture_place + 16 * nt;
    let key_place = palette_place + 16 * np;
    let a = put_entry_head(out, at, frames, nt, np, texture_place, palette_place);
    let b = put_tracks(out, a, tracks, n, key_place);
    let c = put_bytes(out, b, textures);
    let d = put_bytes(out, c, palettes);
    put_bytes(out, d, keys)
}

// The section's info block: one entry, at 48.
fn put_section_block(out: &mut [u8], at: usize, name: &[u8]) -> usize
    requires { (length name.now ≡ 16) × (at + 40 ≤ length out.old) }
    ensures { (result ≡ at + 40) × (out.new ≡ sets out.old at (block_bytes 4 (record { count = 1; datums = little_bytes 4 48 ∷ []; names = name.now ∷ [] }))) }
{
    let a = put_head(out, at, 1, 4);
    let b = put_word(out, a, 4, 48);
    put_bytes(out, b, name)
}

// The section of `size` bytes: stamp, size, info block, entry.
pub fn put_section(
    out: &mut [u8],
    size: usize,
    name: &[u8],
    frames: u16,
    textures: &[u8],
    palettes: &[u8],
    tracks: &[u8],
    keys: &[u8],
)
    requires { (length name.now ≡ 16) × Sized (lent name.now frames textures.now palettes.now tracks.now keys.now) × (size ≡ section_length (lent name.now frames textures.now palettes.now tracks.now keys.now)) × (size ≤ length out.old) }
    ensures { out.new ≡ sets out.old 0 (written (lent name.now frames textures.now palettes.now tracks.now keys.now)) }
{
    // PAT0
    let a = put_word(out, 0, 4, 0x30544150);
    let b = put_word(out, a, 4, size as u64);
    let c = put_section_block(out, b, name);
    put_entry(out, c, frames, textures, palettes, tracks, keys);
}
