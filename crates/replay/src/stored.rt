// Each call: what it is lent is made, and printed after it.
ghost use Rattle.std.specs.Prelude.{◌≤◌, length};

use crate::print::print;
use exports::{
    motion_channel_curve, motion_check, motion_choice, motion_clip, motion_find, motion_keys,
    motion_kind, motion_material, motion_material_name, motion_matrix, motion_palette_names,
    motion_pattern_name, motion_player_mode, motion_player_pick, motion_player_picture,
    motion_player_tick, motion_pose, motion_record, motion_resample_scale,
    motion_resample_translation, motion_rotation_curve, motion_scale_curve, motion_scale_value,
    motion_texture_names, motion_translation_curve, motion_uv_matrix, motion_write_pattern,
};
use std::io;
use std::io::Write;
use util::view::{word16, word32};
use words::CURVE_WORDS;

// Before a call all that it is lent has fives for hex digits, as no word and no float of an answer has.
const WORD: u64 = 0x5555_5555_5555_5555;

const FLOAT: f64 = 1.1945305291614955e103;

const BYTE: u8 = 0x55;

// Which call is stored.
#[derive(Clone, Copy)]
enum Code {
    Record,
    Find,
    TranslationCurve,
    RotationCurve,
    ScaleCurve,
    ChannelCurve,
    UvMatrix,
    MaterialName,
    PatternName,
    TextureNames,
    PaletteNames,
    Keys,
    Choice,
    ResampleTranslation,
    ResampleScale,
    Matrix,
    Check,
    ScaleValue,
    Material,
    WritePattern,
    Pose,
    Clip,
    Kind,
    PlayerPick,
    PlayerTick,
    PlayerMode,
    PlayerPicture,
}

// Its byte in the list. One that stands for no other call is a choice.
impl From<u8> for Code {
    fn from(code: u8) -> Code {
        match code {
            0 => Code::Record,
            1 => Code::Find,
            2 => Code::TranslationCurve,
            3 => Code::RotationCurve,
            4 => Code::ScaleCurve,
            5 => Code::ChannelCurve,
            6 => Code::UvMatrix,
            7 => Code::MaterialName,
            8 => Code::PatternName,
            9 => Code::TextureNames,
            10 => Code::PaletteNames,
            11 => Code::Keys,
            13 => Code::ResampleTranslation,
            14 => Code::ResampleScale,
            15 => Code::Matrix,
            16 => Code::Check,
            17 => Code::ScaleValue,
            18 => Code::Material,
            19 => Code::WritePattern,
            20 => Code::Pose,
            21 => Code::Clip,
            22 => Code::Kind,
            23 => Code::PlayerPick,
            24 => Code::PlayerTick,
            25 => Code::PlayerMode,
            26 => Code::PlayerPicture,
            _ => Code::Choice,
        }
    }
}

// A stored call and its arguments.
#[derive(Clone, Copy)]
struct Call {
    code: Code,
    entry: usize,
    // an object or a track
    index: usize,
    // an axis or a channel
    part: usize,
    frame: u16,
    // where a lent slice is written, or the index of a value, and how much of the slice is lent
    place: usize,
    room: usize,
    name: [u8; 16],
    // a player's four words, in the place of a name
    player: [u64; 4],
}

fn call_of(b: &[u8]) -> Call
    requires { 25 ≤ length b.now }
{
    Call {
        code: b[0].into(),
        entry: b[1] as usize,
        index: word16(b, 2) as usize,
        part: b[4] as usize,
        frame: word16(b, 5),
        place: b[7] as usize,
        room: b[8] as usize,
        name: [
            b[9], b[10], b[11], b[12], b[13], b[14], b[15], b[16], b[17], b[18], b[19], b[20],
            b[21], b[22], b[23], b[24],
        ],
        player: [
            word32(b, 9) as u64,
            word32(b, 13) as u64,
            word32(b, 17) as u64,
            word32(b, 21) as u64,
        ],
    }
}

// ---- calls that are lent alike

// Two words: finding, names, lists and choices.
fn two<W: Write, F: FnOnce(&mut [u64; 2]) -> u32>(to: &mut W, call: F) -> io::Result<()>
    requires { F.IsAlwaysCallable call }
{
    let mut out = [WORD; 2];
    let n = call(&mut out);
    print(to, n, &out, &[], &[])
}

// A curve's words, and a float for a constant.
fn curve<W: Write, F: FnOnce(&mut [u64; CURVE_WORDS], &mut [f64; 1]) -> u32>(
    to: &mut W,
    call: F,
) -> io::Result<()>
    requires { F.IsAlwaysCallable call }
{
    let mut out = [WORD; CURVE_WORDS];
    let mut value = [FLOAT; 1];
    let n = call(&mut out, &mut value);
    print(to, n, &out, &value, &[])
}

// Four words and as many floats as there is room for.
fn resampling<W: Write, F: FnOnce(&mut [f64], &mut [u64; 4]) -> u32>(
    to: &mut W,
    room: usize,
    call: F,
) -> io::Result<()>
    requires { F.IsAlwaysCallable call }
{
    let mut out = [WORD; 4];
    let mut floats = [FLOAT; 40];
    let n = call(&mut floats[..room.min(40)], &mut out);
    print(to, n, &out, &floats, &[])
}

// How many objects, and as many floats as there is room for.
fn posing<W: Write, F: FnOnce(&mut [f64], &mut [u64; 1]) -> u32>(
    to: &mut W,
    room: usize,
    call: F,
) -> io::Result<()>
    requires { F.IsAlwaysCallable call }
{
    let mut objects = [WORD; 1];
    let mut floats = [FLOAT; 100];
    let n = call(&mut floats[..room.min(100)], &mut objects);
    print(to, n, &objects, &floats, &[])
}

// A player, which an event moves.
fn event<W: Write, F: FnOnce(&mut [u64; 4]) -> u32>(
    to: &mut W,
    player: [u64; 4],
    call: F,
) -> io::Result<()>
    requires { F.IsAlwaysCallable call }
{
    let mut moved = player;
    let n = call(&mut moved);
    print(to, n, &moved, &[], &[])
}

// ---- calls on several slices, which stand one behind the other

// A material of two sections: `index` is the length of the first, `part` the entry of the second.
fn material<W: Write>(to: &mut W, both: &[u8], c: Call) -> io::Result<()> {
    let mut shift = [FLOAT; 2];
    let mut choice = [WORD; 3];
    let (srt, pat) = both.split_at(c.index.min(both.len()));
    let n = motion_material(
        srt,
        c.entry,
        pat,
        c.part,
        &c.name,
        c.frame,
        &mut shift,
        &mut choice,
    );
    print(to, n, &choice, &shift, &[])
}

// A section that is written of four lists: `index` is the length of the texture names, `part` that of the palette names, `place` that of the
// tracks, and the rest are the keys.
fn write_pattern<W: Write>(to: &mut W, lists: &[u8], c: Call) -> io::Result<()> {
    let mut out = [BYTE; 240];
    let mut count = [WORD; 1];
    let (textures, others) = lists.split_at(c.index.min(lists.len()));
    let (palettes, last) = others.split_at(c.part.min(others.len()));
    let (tracks, keys) = last.split_at(c.place.min(last.len()));
    let n = motion_write_pattern(
        &c.name,
        c.frame,
        textures,
        palettes,
        tracks,
        keys,
        &mut out[..c.room.min(240)],
        &mut count,
    );
    print(to, n, &count, &[], &out)
}

// The call that 25 bytes stand for, on a section.
pub fn run<W: Write>(to: &mut W, s: &[u8], call: &[u8]) -> io::Result<()>
    requires { 25 ≤ length call.now }
{
    let c = call_of(call);
    match c.code {
        Code::Check => print(to, motion_check(s, c.entry), &[], &[], &[]),
        Code::Kind => {
            let mut out = [WORD; 1];
            let n = motion_kind(s, &mut out);
            print(to, n, &out, &[], &[])
        }
        Code::Record => {
            let mut out = [WORD; 5];
            let n = motion_record(s, c.entry, &mut out);
            print(to, n, &out, &[], &[])
        }
        Code::Find => two(to, |out| motion_find(s, &c.name, out)),
        Code::MaterialName => two(to, |out| motion_material_name(s, c.entry, c.index, out)),
        Code::PatternName => two(to, |out| motion_pattern_name(s, c.entry, c.index, out)),
        Code::TextureNames => two(to, |out| motion_texture_names(s, c.entry, out)),
        Code::PaletteNames => two(to, |out| motion_palette_names(s, c.entry, out)),
        Code::Keys => two(to, |out| motion_keys(s, c.entry, c.index, out)),
        Code::Choice => two(to, |out| {
            motion_choice(s, c.entry, c.index, c.frame, out)
        }),
        Code::TranslationCurve => curve(to, |out, value| {
            motion_translation_curve(s, c.entry, c.index, c.part, out, value)
        }),
        Code::ChannelCurve => curve(to, |out, value| {
            motion_channel_curve(s, c.entry, c.index, c.part, out, value)
        }),
        Code::ScaleCurve => {
            let mut out = [WORD; CURVE_WORDS];
            let mut value = [FLOAT; 2];
            let n = motion_scale_curve(s, c.entry, c.index, c.part, &mut out, &mut value);
            print(to, n, &out, &value, &[])
        }
        Code::RotationCurve => {
            let mut out = [WORD; CURVE_WORDS];
            let mut value = [FLOAT; 9];
            let n = motion_rotation_curve(s, c.entry, c.index, &mut out, &mut value);
            print(to, n, &out, &value, &[])
        }
        Code::ScaleValue => {
            let mut out = [FLOAT; 2];
            let n = motion_scale_value(s, c.entry, c.index, c.part, c.place, &mut out);
            print(to, n, &[], &out, &[])
        }
        Code::UvMatrix => {
            let mut out = [FLOAT; 16];
            let n = motion_uv_matrix(s, c.entry, c.index, c.frame, &mut out);
            print(to, n, &[], &out, &[])
        }
        Code::Matrix => {
            let mut out = [BYTE; 140];
            let lent = &mut out[..c.room.min(140)];
            let n = motion_matrix(s, c.entry, c.index, c.frame, lent);
            print(to, n, &[], &[], &out)
        }
        Code::ResampleTranslation => resampling(to, c.room, |floats, out| {
            motion_resample_translation(s, c.entry, c.index, floats, c.place, out)
        }),
        Code::ResampleScale => resampling(to, c.room, |floats, out| {
            motion_resample_scale(s, c.entry, c.index, floats, c.place, out)
        }),
        Code::Pose => posing(to, c.room, |floats, objects| {
            motion_pose(s, c.entry, c.frame, floats, objects)
        }),
        // of `index` frames
        Code::Clip => posing(to, c.room, |floats, objects| {
            motion_clip(s, c.entry, c.frame, c.index, floats, objects)
        }),
        Code::Material => material(to, s, c),
        Code::WritePattern => write_pattern(to, s, c),
        Code::PlayerPick => event(to, c.player, |player| {
            motion_player_pick(s, player, c.entry)
        }),
        Code::PlayerTick => event(to, c.player, |player| motion_player_tick(s, player)),
        // `index` is whether it loops
        Code::PlayerMode => event(to, c.player, |player| {
            motion_player_mode(player, c.index.min(65535) as u32)
        }),
        Code::PlayerPicture => {
            let mut matrix = [FLOAT; 16];
            let mut shown = [WORD; 3];
            let n = motion_player_picture(s, &c.player, c.index, &mut matrix, &mut shown);
            print(to, n, &shown, &matrix, &[])
        }
    }
}
