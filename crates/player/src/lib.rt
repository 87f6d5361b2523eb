// A player for a viewer: an entry, a frame and a mode, moved by events. It asks the public calls and nothing below them. Every section, every index and
// every player is answered, and nothing is kept of a section from one call to the next.
#![tactic(auto)]

ghost use Rattle.std.specs.Prelude.{List, ◌≡◌, ℕ};
ghost use Rattle.util.specs.Reader.{answered, and_then};
ghost use Rattle.nitro.specs.ContainerCode.{kind_means};
ghost use Rattle.calls.specs.AnswersCode.{matrix_answer_means, choice_answer_means};
ghost use Rattle.player.specs.Player.{step, shown_of};
ghost use Rattle.player.specs.Player as machine;
ghost use Rattle.player.specs.PlayerCode.{mode_means, player_means, player_answer_means, picture_answer_means};

use calls::Choice;
use matrix::Mat4;
use motion::check;
use nitro::container::Kind;
use util::refusal::Refusal;

// What a tick does at the last frame: it stays there, or returns to the first.
#[derive(Clone, Copy)]
pub enum Mode {
    Hold,
    Loop,
}

// The entry that was picked, if one was, the frame, and the mode.
#[derive(Clone, Copy)]
pub struct Player {
    pub picked: Option<usize>,
    pub frame: u16,
    pub mode: Mode,
}

// What a player shows: of an object or a material track a matrix, of a pattern track a choice.
#[derive(Clone, Copy)]
pub enum Shown {
    Matrix(Mat4),
    Choice(Choice),
}

// A player that has picked nothing.
pub fn new() -> Player
    ensures { player_means result ≡ machine.new }
{
    Player {
        picked: None,
        frame: 0,
        mode: Mode::Hold,
    }
}

// An entry is picked, and its first frame. A refused event changes nothing: the caller goes on with the player that it has.
pub fn pick(s: &[u8], p: Player, entry: usize) -> Result<Player, Refusal>
    ensures { player_answer_means result ≡ step s.now (player_means p) (machine.pick entry) }
{
    check(s, entry)?;
    Ok(Player {
        picked: Some(entry),
        frame: 0,
        ..p
    })
}

// The frame that a tick goes to.
fn next(mode: Mode, frames: u16, frame: u16) -> u16
    ensures { result ≡ machine.next (mode_means mode) frames frame }
{
    if frames == 0 {
        return 0;
    }
    if frame < frames - 1 {
        return frame + 1;
    }
    match mode {
        Mode::Hold => frame,
        Mode::Loop => 0,
    }
}

// One tick of the entry that was picked.
pub fn tick(s: &[u8], p: Player) -> Result<Player, Refusal>
    ensures { player_answer_means result ≡ step s.now (player_means p) machine.tick }
{
    let Some(entry) = p.picked else {
        return Err(Refusal::NothingPicked);
    };
    let e = check(s, entry)?;
    Ok(Player {
        frame: next(p.mode, e.frames, p.frame),
        ..p
    })
}

// The mode is set; this is never refused, and asks no section.
pub fn set_mode(p: Player, mode: Mode) -> Player
    ensures { (s : List ℕ) → answered (player_means result) ≡ step s (player_means p) (machine.set (mode_means mode)) }
{
    Player { mode, ..p }
}

// Object or track `index` of an entry of a section of this kind, at a frame.
fn shown_of(s: &[u8], kind: Kind, entry: usize, frame: u16, index: usize) -> Result<Shown, Refusal>
    ensures { picture_answer_means result ≡ shown_of (kind_means kind) entry frame index s.now }
{
    Ok(match kind {
        Kind::Jnt => Shown::Matrix(jnt::matrix(s, entry, index, frame)?),
        Kind::Srt => Shown::Matrix(srt::uv_matrix(s, entry, index, frame)?),
        Kind::Pat => Shown::Choice(pat::choice(s, entry, index, frame)?),
    })
}

// What the player shows of an object or a track.
pub fn picture(s: &[u8], p: Player, index: usize) -> Result<Shown, Refusal>
    ensures { picture_answer_means result ≡ machine.picture s.now (player_means p) index }
{
    let entry = p.picked.ok_or(Refusal::NothingPicked)?;
    let kind = motion::kind(s)?;
    shown_of(s, kind, entry, p.frame, index)
}
