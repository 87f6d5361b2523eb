// The calls for programs in C and Rust. A slice is passed as a pointer and a length, an array as a pointer. Each call answers document 01's
// number, 0 where it accepts, and then writes its answer into the arrays that it is lent; a refused call leaves them as they were.
#![tactic(auto)]

ghost use Rattle.std.specs.Prelude.{List, ◌≡◌, ℕ, length};
ghost use Rattle.std.proofs.lemmas.List.Edits.{sets};
ghost use Rattle.util.specs.Reader.{told, number};
ghost use Rattle.matrix.specs.Matrix.{floats_of};
ghost use Rattle.animation.specs.Animation.{translation, scale};
ghost use Rattle.gltf.specs.Curve.{slice_of};
ghost use Rattle.pose.specs.Pose.{posed_slice};
ghost use Rattle.nitro.specs.Container.{jnt, srt, pat};
ghost use Rattle.calls.specs.Calls.{answer, on, of_object, matrix_bytes, curve, scale_value, rotation_curve, resampled, of_material, uv_matrix, channel_curve, material_name, of_pattern, chosen, texture_names, palette_names, pattern_name, bytes_after};
ghost use Rattle.calls.specs.Calls as calls;
ghost use Rattle.calls.specs.Kinds.{section_kind};
ghost use Rattle.calls.specs.Material as material;
ghost use Rattle.player.specs.Player as machine;
ghost use Rattle.player_words.specs.PlayerWords.{mode_of, player_of, Moves, picture_words, picture_floats};
ghost use Rattle.pattern_section.specs.Written.{lent};
ghost use Rattle.listing.specs.Listing.{listing};
ghost use Rattle.words.specs.Words.{Writes, kind_words, name_words, checked, record_words, curve_words, curve_floats, one_float, two_floats, nine_floats, listed_words, chosen_words, shift_floats, material_words, resampled_words, posed_words, found_words, WritesPattern};

use animation::Triple;
use listing::list_section;
use material::material;
use matrix::put_matrix;
use motion::{check, find, kind};
use player::{pick, picture, tick};
use player_words::{mode_of, player_of, put_mode, put_pick, put_picture, put_tick};
use text::ROOM;
use util::refusal::Refusal;
use words::{
    CURVE_WORDS, put_choice, put_count, put_curve, put_found, put_kind, put_list, put_material,
    put_name, put_objects, put_record, put_resampling, put_sixteen, put_value,
};
use writing::write_pattern;

// The kind of a section: 0 for JNT0, 1 for SRT0, 2 for PAT0.
pub fn motion_kind(s: &[u8], out: &mut [u64; 1]) -> u32
    ensures { Writes kind_words (told (section_kind s.now)) result out.old out.new }
{
    put_kind(kind(s), out)
}

// Whether an entry is whole: the number of its check.
pub fn motion_check(s: &[u8], entry: usize) -> u32
    ensures { result ≡ number (told (answer (calls.check entry) s.now)) }
{
    match check(s, entry) {
        Err(e) => e.into(),
        Ok(_) => 0,
    }
}

// The matrix of a JNT0 object at a frame into the first 128 bytes of `out`: sixteen floats, column by column, eight little-endian bytes
// each. The rest of `out` keeps its contents, and so does all of it where the call refuses.
pub fn motion_matrix(s: &[u8], entry: usize, object: usize, frame: u16, out: &mut [u8]) -> u32
    ensures { (result ≡ number (told (answer (on jnt entry (of_object object (matrix_bytes frame out.old))) s.now))) × (out.new ≡ bytes_after out.old (told (answer (on jnt entry (of_object object (matrix_bytes frame out.old))) s.now))) }
{
    match jnt::matrix(s, entry, object, frame) {
        Err(e) => e.into(),
        Ok(m) => {
            if out.len() < 128 {
                return Refusal::SmallSlice.into();
            }
            put_matrix(out, m);
            0
        }
    }
}

// The matrices of all objects of a JNT0 entry at a frame, from the start of `out`: sixteen floats each, column by column; and how many objects
// there are. What stands behind them in `out` keeps its contents, and so does all of it where the call refuses.
pub fn motion_pose(
    s: &[u8],
    entry: usize,
    frame: u16,
    out: &mut [f64],
    objects: &mut [u64; 1],
) -> u32
    ensures { Writes posed_words (told (answer (on jnt entry (calls.pose frame out.old)) s.now)) result objects.old objects.new × (out.new ≡ posed_slice out.old (told (answer (on jnt entry (calls.pose frame out.old)) s.now))) }
{
    put_objects(jnt::pose(s, entry, frame, out), objects)
}

// Likewise at so many frames from `first` on, one pose after the other.
pub fn motion_clip(
    s: &[u8],
    entry: usize,
    first: u16,
    frames: usize,
    out: &mut [f64],
    objects: &mut [u64; 1],
) -> u32
    ensures { Writes posed_words (told (answer (on jnt entry (calls.clip first frames out.old)) s.now)) result objects.old objects.new × (out.new ≡ posed_slice out.old (told (answer (on jnt entry (calls.clip first frames out.old)) s.now))) }
{
    put_objects(jnt::clip(s, entry, first, frames, out), objects)
}

// The record of an entry: the two words of its name, its reach, its frames, and how many objects or tracks it has.
pub fn motion_record(s: &[u8], entry: usize, out: &mut [u64; 5]) -> u32
    ensures { Writes record_words (checked (answer (calls.check entry) s.now)) result out.old out.new }
{
    put_record(check(s, entry), out)
}

// The earliest entry with this name: 1 and its index, or 0 if there is none.
pub fn motion_find(s: &[u8], name: &[u8; 16], out: &mut [u64; 2]) -> u32
    ensures { Writes found_words (told (answer (calls.find name.now) s.now)) result out.old out.new }
{
    put_found(find(s, name), out)
}

// A curve of a JNT0 object: 0 for none, 1 for a constant, whose value goes to `value`, or 2 and the list's start, end, place, length and bytes per value.
pub fn motion_translation_curve(
    s: &[u8],
    entry: usize,
    object: usize,
    axis: usize,
    out: &mut [u64; CURVE_WORDS],
    value: &mut [f64; 1],
) -> u32
    ensures { Writes curve_words (told (answer (on jnt entry (of_object object (curve translation axis))) s.now)) result out.old out.new × Writes (curve_floats one_float) (told (answer (on jnt entry (of_object object (curve translation axis))) s.now)) result value.old value.new }
{
    put_curve(jnt::translation_curve(s, entry, object, axis), out, value)
}

// Likewise its rotation; a constant has nine floats, column by column.
pub fn motion_rotation_curve(
    s: &[u8],
    entry: usize,
    object: usize,
    out: &mut [u64; CURVE_WORDS],
    value: &mut [f64; 9],
) -> u32
    ensures { Writes curve_words (told (answer (on jnt entry (of_object object rotation_curve)) s.now)) result out.old out.new × Writes (curve_floats nine_floats) (told (answer (on jnt entry (of_object object rotation_curve)) s.now)) result value.old value.new }
{
    put_curve(jnt::rotation_curve(s, entry, object), out, value)
}

// Likewise its scale; a constant has two floats, its first and its second number.
pub fn motion_scale_curve(
    s: &[u8],
    entry: usize,
    object: usize,
    axis: usize,
    out: &mut [u64; CURVE_WORDS],
    value: &mut [f64; 2],
) -> u32
    ensures { Writes curve_words (told (answer (on jnt entry (of_object object (curve scale axis))) s.now)) result out.old out.new × Writes (curve_floats two_floats) (told (answer (on jnt entry (of_object object (curve scale axis))) s.now)) result value.old value.new }
{
    put_curve(jnt::scale_curve(s, entry, object, axis), out, value)
}

// One value of a JNT0 object's scale: its first and its second number. The index counts the values that the curve stores; a constant has one.
pub fn motion_scale_value(
    s: &[u8],
    entry: usize,
    object: usize,
    axis: usize,
    index: usize,
    out: &mut [f64; 2],
) -> u32
    ensures { Writes two_floats (told (answer (on jnt entry (of_object object (scale_value axis index))) s.now)) result out.old out.new }
{
    put_value(jnt::scale_value(s, entry, object, axis, index), out)
}

// Likewise a channel of an SRT0 track.
pub fn motion_channel_curve(
    s: &[u8],
    entry: usize,
    track: usize,
    channel: usize,
    out: &mut [u64; CURVE_WORDS],
    value: &mut [f64; 1],
) -> u32
    ensures { Writes curve_words (told (answer (on srt entry (of_material track (channel_curve channel))) s.now)) result out.old out.new × Writes (curve_floats one_float) (told (answer (on srt entry (of_material track (channel_curve channel))) s.now)) result value.old value.new }
{
    put_curve(srt::channel_curve(s, entry, track, channel), out, value)
}

// The matrix of an SRT0 track at a frame: sixteen floats, column by column.
pub fn motion_uv_matrix(
    s: &[u8],
    entry: usize,
    track: usize,
    frame: u16,
    out: &mut [f64; 16],
) -> u32
    ensures { Writes floats_of (told (answer (on srt entry (of_material track (uv_matrix frame))) s.now)) result out.old out.new }
{
    put_sixteen(srt::uv_matrix(s, entry, track, frame), out)
}

// The two words of an SRT0 track's name.
pub fn motion_material_name(s: &[u8], entry: usize, track: usize, out: &mut [u64; 2]) -> u32
    ensures { Writes name_words (told (answer (on srt entry (material_name track)) s.now)) result out.old out.new }
{
    put_name(srt::track_name(s, entry, track), out)
}

// The two words of a PAT0 track's name.
pub fn motion_pattern_name(s: &[u8], entry: usize, track: usize, out: &mut [u64; 2]) -> u32
    ensures { Writes name_words (told (answer (on pat entry (pattern_name track)) s.now)) result out.old out.new }
{
    put_name(pat::track_name(s, entry, track), out)
}

// The place and the length of a PAT0 entry's texture names.
pub fn motion_texture_names(s: &[u8], entry: usize, out: &mut [u64; 2]) -> u32
    ensures { Writes listed_words (told (answer (on pat entry texture_names) s.now)) result out.old out.new }
{
    put_list(pat::texture_names(s, entry), out)
}

// Likewise of its palette names.
pub fn motion_palette_names(s: &[u8], entry: usize, out: &mut [u64; 2]) -> u32
    ensures { Writes listed_words (told (answer (on pat entry palette_names) s.now)) result out.old out.new }
{
    put_list(pat::palette_names(s, entry), out)
}

// Likewise of a track's keys.
pub fn motion_keys(s: &[u8], entry: usize, track: usize, out: &mut [u64; 2]) -> u32
    ensures { Writes listed_words (told (answer (on pat entry (of_pattern track calls.keys)) s.now)) result out.old out.new }
{
    put_list(pat::keys(s, entry, track), out)
}

// The texture and the palette of a PAT0 track at a frame.
pub fn motion_choice(s: &[u8], entry: usize, track: usize, frame: u16, out: &mut [u64; 2]) -> u32
    ensures { Writes chosen_words (told (answer (on pat entry (of_pattern track (chosen frame))) s.now)) result out.old out.new }
{
    put_choice(pat::choice(s, entry, track, frame), out)
}

// A material of this name at a frame, from an SRT0 entry and a PAT0 entry: the shift of its texture, u and v; and 1 and the indexes of its texture and its
// palette, or 0 if nothing chooses them.
pub fn motion_material(
    srt: &[u8],
    srt_entry: usize,
    pat: &[u8],
    pat_entry: usize,
    name: &[u8; 16],
    frame: u16,
    shift: &mut [f64; 2],
    choice: &mut [u64; 3],
) -> u32
    ensures { Writes shift_floats (material.material srt_entry pat_entry name.now frame srt.now pat.now) result shift.old shift.new × Writes material_words (material.material srt_entry pat_entry name.now frame srt.now pat.now) result choice.old choice.new }
{
    put_material(
        material(srt, srt_entry, pat, pat_entry, name, frame),
        shift,
        choice,
    )
}

// An entry is picked: a player is four words, and any four are one. They are whether an entry is picked, the entry, the frame in the low sixteen bits,
// and whether it loops.
pub fn motion_player_pick(s: &[u8], player: &mut [u64; 4], entry: usize) -> u32
    ensures { Moves s.now (machine.pick entry) result player.old player.new }
{
    let p = player_of(player);
    put_pick(pick(s, p, entry), entry, player)
}

// One tick of the entry that was picked.
pub fn motion_player_tick(s: &[u8], player: &mut [u64; 4]) -> u32
    ensures { Moves s.now machine.tick result player.old player.new }
{
    let p = player_of(player);
    put_tick(tick(s, p), player)
}

// The mode is set: 0 for hold, any other number for loop. It is never refused.
pub fn motion_player_mode(player: &mut [u64; 4], loops: u32) -> u32
    ensures { (s : List ℕ) → Moves s (machine.set (mode_of loops)) result player.old player.new }
{
    put_mode(mode_of(loops as u64), player)
}

// What a player shows of an object or a track: 1, and sixteen floats, column by column; or 2, and the indexes of a texture and a palette.
pub fn motion_player_picture(
    s: &[u8],
    player: &[u64; 4],
    index: usize,
    matrix: &mut [f64; 16],
    shown: &mut [u64; 3],
) -> u32
    ensures { Writes picture_floats (machine.picture s.now (player_of player.now) index) result matrix.old matrix.new × Writes picture_words (machine.picture s.now (player_of player.now) index) result shown.old shown.new }
{
    let p = player_of(player);
    put_picture(picture(s, p, index), matrix, shown)
}

// A PAT0 section of one entry, written from the start of `out`: how many bytes it has. What stands behind it in `out` keeps its contents, and so
// does all of it where the call refuses. Lists are bytes: 16 a name, 20 a track (its name, and how many keys it has), 4 a key, track by track.
pub fn motion_write_pattern(
    name: &[u8; 16],
    frames: u16,
    textures: &[u8],
    palettes: &[u8],
    tracks: &[u8],
    keys: &[u8],
    out: &mut [u8],
    written: &mut [u64; 1],
) -> u32
    ensures { WritesPattern (lent name.now frames textures.now palettes.now tracks.now keys.now) result out.old out.new written.old written.new }
{
    put_count(
        write_pattern(name, frames, textures, palettes, tracks, keys, out),
        written,
    )
}

// A JNT0 object's translation, resampled into `floats` from a place onward: 1, the start, the end and how many frames were written, or 0 for
// three missing curves.
pub fn motion_resample_translation(
    s: &[u8],
    entry: usize,
    object: usize,
    floats: &mut [f64],
    place: usize,
    out: &mut [u64; 4],
) -> u32
    ensures { Writes resampled_words (told (answer (on jnt entry (of_object object (resampled translation floats.old place))) s.now)) result out.old out.new × (floats.new ≡ slice_of floats.old (told (answer (on jnt entry (of_object object (resampled translation floats.old place))) s.now))) }
{
    put_resampling(
        jnt::resample(s, entry, object, Triple::Translation, floats, place),
        out,
    )
}

// Likewise its scale.
pub fn motion_resample_scale(
    s: &[u8],
    entry: usize,
    object: usize,
    floats: &mut [f64],
    place: usize,
    out: &mut [u64; 4],
) -> u32
    ensures { Writes resampled_words (told (answer (on jnt entry (of_object object (resampled scale floats.old place))) s.now)) result out.old out.new × (floats.new ≡ slice_of floats.old (told (answer (on jnt entry (of_object object (resampled scale floats.old place))) s.now))) }
{
    put_resampling(
        jnt::resample(s, entry, object, Triple::Scale, floats, place),
        out,
    )
}

// The listing of a section, as motion-list prints it; answers how many bytes it has.
pub fn motion_list(s: &[u8], out: &mut [u8; ROOM]) -> usize
    ensures { (result ≡ length (listing s.now)) × (out.new ≡ sets out.old 0 (listing s.now)) }
{
    list_section(s, out)
}
