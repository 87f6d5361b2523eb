// The calls of exports as functions of C, under their names and with their clauses. A slice is passed as a pointer and a length, an array as a pointer.
#![tactic(auto)]

ghost use Rattle.std.specs.Prelude.{List, ◌≡◌, ℕ, length};
ghost use Rattle.std.proofs.lemmas.List.Edits.{sets};
ghost use Rattle.util.specs.Reader.{told, number};
ghost use Rattle.matrix.specs.Matrix.{floats_of};
ghost use Rattle.animation.specs.Animation.{translation, scale};
ghost use Rattle.gltf.specs.Curve.{slice_of};
ghost use Rattle.pose.specs.Pose.{posed_slice};
ghost use Rattle.nitro.specs.Container.{jnt, srt, pat};
ghost use Rattle.calls.specs.Calls.{answer, on, of_object, matrix_bytes, curve, scale_value, rotation_curve, resampled, of_material, uv_matrix, channel_curve, material_name, of_pattern, chosen, texture_names, palette_names, pattern_name, bytes_after};
ghost use Rattle.calls.specs.Calls as calls;
ghost use Rattle.calls.specs.Kinds.{section_kind};
ghost use Rattle.calls.specs.Material as material;
ghost use Rattle.player.specs.Player as machine;
ghost use Rattle.player_words.specs.PlayerWords.{mode_of, player_of, Moves, picture_words, picture_floats};
ghost use Rattle.pattern_section.specs.Written.{lent};
ghost use Rattle.listing.specs.Listing.{listing};
ghost use Rattle.words.specs.Words.{Writes, kind_words, name_words, checked, record_words, curve_words, curve_floats, one_float, two_floats, nine_floats, listed_words, chosen_words, shift_floats, material_words, resampled_words, posed_words, found_words, WritesPattern};

use text::ROOM;
use words::CURVE_WORDS;

#[unsafe(no_mangle)]
pub extern "C" fn motion_kind(s: &[u8], out: &mut [u64; 1]) -> u32
    ensures { Writes kind_words (told (section_kind s.now)) result out.old out.new }
{
    exports::motion_kind(s, out)
}

#[unsafe(no_mangle)]
pub extern "C" fn motion_check(s: &[u8], entry: usize) -> u32
    ensures { result ≡ number (told (answer (calls.check entry) s.now)) }
{
    exports::motion_check(s, entry)
}

#[unsafe(no_mangle)]
pub extern "C" fn motion_matrix(
    s: &[u8],
    entry: usize,
    object: usize,
    frame: u16,
    out: &mut [u8],
) -> u32
    ensures { (result ≡ number (told (answer (on jnt entry (of_object object (matrix_bytes frame out.old))) s.now))) × (out.new ≡ bytes_after out.old (told (answer (on jnt entry (of_object object (matrix_bytes frame out.old))) s.now))) }
{
    exports::motion_matrix(s, entry, object, frame, out)
}

#[unsafe(no_mangle)]
pub extern "C" fn motion_pose(
    s: &[u8],
    entry: usize,
    frame: u16,
    out: &mut [f64],
    objects: &mut [u64; 1],
) -> u32
    ensures { Writes posed_words (told (answer (on jnt entry (calls.pose frame out.old)) s.now)) result objects.old objects.new × (out.new ≡ posed_slice out.old (told (answer (on jnt entry (calls.pose frame out.old)) s.now))) }
{
    exports::motion_pose(s, entry, frame, out, objects)
}

#[unsafe(no_mangle)]
pub extern "C" fn motion_clip(
    s: &[u8],
    entry: usize,
    first: u16,
    frames: usize,
    out: &mut [f64],
    objects: &mut [u64; 1],
) -> u32
    ensures { Writes posed_words (told (answer (on jnt entry (calls.clip first frames out.old)) s.now)) result objects.old objects.new × (out.new ≡ posed_slice out.old (told (answer (on jnt entry (calls.clip first frames out.old)) s.now))) }
{
    exports::motion_clip(s, entry, first, frames, out, objects)
}

#[unsafe(no_mangle)]
pub extern "C" fn motion_record(s: &[u8], entry: usize, out: &mut [u64; 5]) -> u32
    ensures { Writes record_words (checked (answer (calls.check entry) s.now)) result out.old out.new }
{
    exports::motion_record(s, entry, out)
}

#[unsafe(no_mangle)]
pub extern "C" fn motion_find(s: &[u8], name: &[u8; 16], out: &mut [u64; 2]) -> u32
    ensures { Writes found_words (told (answer (calls.find name.now) s.now)) result out.old out.new }
{
    exports::motion_find(s, name, out)
}

#[unsafe(no_mangle)]
pub extern "C" fn motion_translation_curve(
    s: &[u8],
    entry: usize,
    object: usize,
    axis: usize,
    out: &mut [u64; CURVE_WORDS],
    value: &mut [f64; 1],
) -> u32
    ensures { Writes curve_words (told (answer (on jnt entry (of_object object (curve translation axis))) s.now)) result out.old out.new × Writes (curve_floats one_float) (told (answer (on jnt entry (of_object object (curve translation axis))) s.now)) result value.old value.new }
{
    exports::motion_translation_curve(s, entry, object, axis, out, value)
}

#[unsafe(no_mangle)]
pub extern "C" fn motion_rotation_curve(
    s: &[u8],
    entry: usize,
    object: usize,
    out: &mut [u64; CURVE_WORDS],
    value: &mut [f64; 9],
) -> u32
    ensures { Writes curve_words (told (answer (on jnt entry (of_object object rotation_curve)) s.now)) result out.old out.new × Writes (curve_floats nine_floats) (told (answer (on jnt entry (of_object object rotation_curve)) s.now)) result value.old value.new }
{
    exports::motion_rotation_curve(s, entry, object, out, value)
}

#[unsafe(no_mangle)]
pub extern "C" fn motion_scale_curve(
    s: &[u8],
    entry: usize,
    object: usize,
    axis: usize,
    out: &mut [u64; CURVE_WORDS],
    value: &mut [f64; 2],
) -> u32
    ensures { Writes curve_words (told (answer (on jnt entry (of_object object (curve scale axis))) s.now)) result out.old out.new × Writes (curve_floats two_floats) (told (answer (on jnt entry (of_object object (curve scale axis))) s.now)) result value.old value.new }
{
    exports::motion_scale_curve(s, entry, object, axis, out, value)
}

#[unsafe(no_mangle)]
pub extern "C" fn motion_scale_value(
    s: &[u8],
    entry: usize,
    object: usize,
    axis: usize,
    index: usize,
    out: &mut [f64; 2],
) -> u32
    ensures { Writes two_floats (told (answer (on jnt entry (of_object object (scale_value axis index))) s.now)) result out.old out.new }
{
    exports::motion_scale_value(s, entry, object, axis, index, out)
}

#[unsafe(no_mangle)]
pub extern "C" fn motion_channel_curve(
    s: &[u8],
    entry: usize,
    track: usize,
    channel: usize,
    out: &mut [u64; CURVE_WORDS],
    value: &mut [f64; 1],
) -> u32
    ensures { Writes curve_words (told (answer (on srt entry (of_material track (channel_curve channel))) s.now)) result out.old out.new × Writes (curve_floats one_float) (told (answer (on srt entry (of_material track (channel_curve channel))) s.now)) result value.old value.new }
{
    exports::motion_channel_curve(s, entry, track, channel, out, value)
}

#[unsafe(no_mangle)]
pub extern "C" fn motion_uv_matrix(
    s: &[u8],
    entry: usize,
    track: usize,
    frame: u16,
    out: &mut [f64; 16],
) -> u32
    ensures { Writes floats_of (told (answer (on srt entry (of_material track (uv_matrix frame))) s.now)) result out.old out.new }
{
    exports::motion_uv_matrix(s, entry, track, frame, out)
}

#[unsafe(no_mangle)]
pub extern "C" fn motion_material_name(
    s: &[u8],
    entry: usize,
    track: usize,
    out: &mut [u64; 2],
) -> u32
    ensures { Writes name_words (told (answer (on srt entry (material_name track)) s.now)) result out.old out.new }
{
    exports::motion_material_name(s, entry, track, out)
}

#[unsafe(no_mangle)]
pub extern "C" fn motion_pattern_name(
    s: &[u8],
    entry: usize,
    track: usize,
    out: &mut [u64; 2],
) -> u32
    ensures { Writes name_words (told (answer (on pat entry (pattern_name track)) s.now)) result out.old out.new }
{
    exports::motion_pattern_name(s, entry, track, out)
}

#[unsafe(no_mangle)]
pub extern "C" fn motion_texture_names(s: &[u8], entry: usize, out: &mut [u64; 2]) -> u32
    ensures { Writes listed_words (told (answer (on pat entry texture_names) s.now)) result out.old out.new }
{
    exports::motion_texture_names(s, entry, out)
}

#[unsafe(no_mangle)]
pub extern "C" fn motion_palette_names(s: &[u8], entry: usize, out: &mut [u64; 2]) -> u32
    ensures { Writes listed_words (told (answer (on pat entry palette_names) s.now)) result out.old out.new }
{
    exports::motion_palette_names(s, entry, out)
}

#[unsafe(no_mangle)]
pub extern "C" fn motion_keys(s: &[u8], entry: usize, track: usize, out: &mut [u64; 2]) -> u32
    ensures { Writes listed_words (told (answer (on pat entry (of_pattern track calls.keys)) s.now)) result out.old out.new }
{
    exports::motion_keys(s, entry, track, out)
}

#[unsafe(no_mangle)]
pub extern "C" fn motion_choice(
    s: &[u8],
    entry: usize,
    track: usize,
    frame: u16,
    out: &mut [u64; 2],
) -> u32
    ensures { Writes chosen_words (told (answer (on pat entry (of_pattern track (chosen frame))) s.now)) result out.old out.new }
{
    exports::motion_choice(s, entry, track, frame, out)
}

#[unsafe(no_mangle)]
pub extern "C" fn motion_material(
    srt: &[u8],
    srt_entry: usize,
    pat: &[u8],
    pat_entry: usize,
    name: &[u8; 16],
    frame: u16,
    shift: &mut [f64; 2],
    choice: &mut [u64; 3],
) -> u32
    ensures { Writes shift_floats (material.material srt_entry pat_entry name.now frame srt.now pat.now) result shift.old shift.new × Writes material_words (material.material srt_entry pat_entry name.now frame srt.now pat.now) result choice.old choice.new }
{
    exports::motion_material(srt, srt_entry, pat, pat_entry, name, frame, shift, choice)
}

#[unsafe(no_mangle)]
pub extern "C" fn motion_player_pick(s: &[u8], player: &mut [u64; 4], entry: usize) -> u32
    ensures { Moves s.now (machine.pick entry) result player.old player.new }
{
    exports::motion_player_pick(s, player, entry)
}

#[unsafe(no_mangle)]
pub extern "C" fn motion_player_tick(s: &[u8], player: &mut [u64; 4]) -> u32
    ensures { Moves s.now machine.tick result player.old player.new }
{
    exports::motion_player_tick(s, player)
}

#[unsafe(no_mangle)]
pub extern "C" fn motion_player_mode(player: &mut [u64; 4], loops: u32) -> u32
    ensures { (s : List ℕ) → Moves s (machine.set (mode_of loops)) result player.old player.new }
{
    exports::motion_player_mode(player, loops)
}

#[unsafe(no_mangle)]
pub extern "C" fn motion_player_picture(
    s: &[u8],
    player: &[u64; 4],
    index: usize,
    matrix: &mut [f64; 16],
    shown: &mut [u64; 3],
) -> u32
    ensures { Writes picture_floats (machine.picture s.now (player_of player.now) index) result matrix.old matrix.new × Writes picture_words (machine.picture s.now (player_of player.now) index) result shown.old shown.new }
{
    exports::motion_player_picture(s, player, index, matrix, shown)
}

#[unsafe(no_mangle)]
pub extern "C" fn motion_write_pattern(
    name: &[u8; 16],
    frames: u16,
    textures: &[u8],
    palettes: &[u8],
    tracks: &[u8],
    keys: &[u8],
    out: &mut [u8],
    written: &mut [u64; 1],
) -> u32
    ensures { WritesPattern (lent name.now frames textures.now palettes.now tracks.now keys.now) result out.old out.new written.old written.new }
{
    exports::motion_write_pattern(name, frames, textures, palettes, tracks, keys, out, written)
}

#[unsafe(no_mangle)]
pub extern "C" fn motion_resample_translation(
    s: &[u8],
    entry: usize,
    object: usize,
    floats: &mut [f64],
    place: usize,
    out: &mut [u64; 4],
) -> u32
    ensures { Writes resampled_words (told (answer (on jnt entry (of_object object (resampled translation floats.old place))) s.now)) result out.old out.new × (floats.new ≡ slice_of floats.old (told (answer (on jnt entry (of_object object (resampled translation floats.old place))) s.now))) }
{
    exports::motion_resample_translation(s, entry, object, floats, place, out)
}

#[unsafe(no_mangle)]
pub extern "C" fn motion_resample_scale(
    s: &[u8],
    entry: usize,
    object: usize,
    floats: &mut [f64],
    place: usize,
    out: &mut [u64; 4],
) -> u32
    ensures { Writes resampled_words (told (answer (on jnt entry (of_object object (resampled scale floats.old place))) s.now)) result out.old out.new × (floats.new ≡ slice_of floats.old (told (answer (on jnt entry (of_object object (resampled scale floats.old place))) s.now))) }
{
    exports::motion_resample_scale(s, entry, object, floats, place, out)
}

#[unsafe(no_mangle)]
pub extern "C" fn motion_list(s: &[u8], out: &mut [u8; ROOM]) -> usize
    ensures { (result ≡ length (listing s.now)) × (out.new ≡ sets out.old 0 (listing s.now)) }
{
    exports::motion_list(s, out)
}
