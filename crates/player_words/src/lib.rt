// A player as the four words that it is for C, and what its answers are written as.
#![tactic(auto)]

ghost use Rattle.std.specs.Prelude.{cond, ◌≡◌, ◌≤◌, eqb, length};
ghost use Rattle.std.proofs.Math.Option.{none, some};
ghost use Rattle.util.specs.Reader.{answered};
ghost use Rattle.calls.specs.AnswersCode.{found};
ghost use Rattle.player.specs.Player.{pick, tick, set};
ghost use Rattle.player.specs.Player as machine;
ghost use Rattle.player.specs.PlayerCode.{mode_means, player_means, player_answer_means, picture_answer_means};
ghost use Rattle.words.specs.Words.{Writes};
ghost use Rattle.player_words.specs.PlayerWords.{mode_of, player_of, mode_word, picture_words, picture_floats};
ghost use Rattle.player_words.specs.PlayerWordsCode.{Sixteen, Sets};

use matrix::put_floats;
use player::{Mode, Player, Shown};
use util::refusal::Refusal;

fn picked_of(is_picked: u64, entry: u64) -> Option<usize>
    ensures { found (λ i. i) result ≡ cond (eqb is_picked 0) none (some entry) }
{
    if is_picked == 0 {
        return None;
    }
    Some(entry as usize)
}

pub fn mode_of(loops: u64) -> Mode
    ensures { mode_means result ≡ mode_of loops }
{
    if loops == 0 {
        return Mode::Hold;
    }
    Mode::Loop
}

// The player that four words are; any four are one.
pub fn player_of(words: &[u64]) -> Player
    requires { 4 ≤ length words.now }
    ensures { player_means result ≡ player_of words.now }
{
    Player {
        picked: picked_of(words[0], words[1]),
        frame: (words[2] % 65536) as u16,
        mode: mode_of(words[3]),
    }
}

// An entry was picked.
pub fn put_pick(a: Result<Player, Refusal>, entry: usize, out: &mut [u64; 4]) -> u32
    ensures { Sets (pick entry) (player_answer_means a) result out.old out.new }
{
    match a {
        Err(e) => e.into(),
        Ok(_) => {
            out[0] = 1;
            out[1] = entry as u64;
            out[2] = 0;
            0
        }
    }
}

// The frame after a tick.
pub fn put_tick(a: Result<Player, Refusal>, out: &mut [u64; 4]) -> u32
    ensures { Sets tick (player_answer_means a) result out.old out.new × Sixteen (player_answer_means a) }
{
    match a {
        Err(e) => e.into(),
        Ok(p) => {
            out[2] = p.frame as u64;
            0
        }
    }
}

fn mode_word(mode: Mode) -> u64
    ensures { result ≡ mode_word (mode_means mode) }
{
    match mode {
        Mode::Hold => 0,
        Mode::Loop => 1,
    }
}

// The mode, of whatever player.
pub fn put_mode(mode: Mode, out: &mut [u64]) -> u32
    requires { 4 ≤ length out.old }
    ensures { (p : machine.Player) → Sets (set (mode_means mode)) (answered p) result out.old out.new }
{
    out[3] = mode_word(mode);
    0
}

// A matrix, or a texture and a palette.
pub fn put_picture(a: Result<Shown, Refusal>, matrix: &mut [f64; 16], picture: &mut [u64; 3]) -> u32
    ensures { Writes picture_floats (picture_answer_means a) result matrix.old matrix.new × Writes picture_words (picture_answer_means a) result picture.old picture.new }
{
    match a {
        Err(e) => e.into(),
        Ok(Shown::Matrix(m)) => {
            put_floats(matrix, 0, m);
            picture[0] = 1;
            0
        }
        Ok(Shown::Choice(c)) => {
            picture[0] = 2;
            picture[1] = c.texture.0 as u64;
            picture[2] = c.palette.0 as u64;
            0
        }
    }
}
