// An entry of a section: its kind, where it stands, what it holds.
ghost use Rattle.std.specs.Prelude.{List, ◌≡◌, ℕ, ◌≤◌, length, Ok};
ghost use Rattle.util.specs.Reader.{accepted, done, bind, run};
ghost use Rattle.util.specs.ReaderCode.{IsRead};
ghost use Rattle.animation.specs.AnimationCode.{WholeAnimation};
ghost use Rattle.material_animation.specs.MaterialAnimationCode.{WholeMaterial};
ghost use Rattle.pattern.specs.PatternCode.{WholePattern};
ghost use Rattle.nitro.specs.Container as spec;
ghost use Rattle.nitro.specs.Container.{jnt, srt, pat, all_kinds, stamped, value, entry, record_of};
ghost use Rattle.nitro.specs.ContainerCode.{kind_means, EntryReads};
ghost use Rattle.nitro.specs.EntryCode.{check_means, HeldIs, ValueIs, OpenReads, Opens};

use crate::container::{EntryAt, Kind, find_entry, read_stamp};
use animation::{Animation, read_animation};
use info_block::name::{Name, name_at};
use material_animation::{MaterialAnimation, read_mat_anim};
use pattern::{Pattern, read_pattern};
use util::refusal::Refusal;

// What the check finds of a whole entry: its record and its reach. `count` is how many objects or tracks it has, `samples` how long its lists
// are together.
#[derive(Clone, Copy)]
pub struct Checked {
    pub name: Name,
    pub reach: usize,
    pub frames: u16,
    pub count: usize,
    pub samples: u64,
}

// What an entry holds, counted from the entry.
#[derive(Clone, Copy)]
pub struct Held {
    pub frames: u16,
    pub count: usize,
    pub samples: u64,
    pub reach: usize,
}

// What is known of a whole entry of one kind of section.
pub trait Entry: Copy {
    // the kind, and what is so of a value that was read of these bytes
    ghost kind: { spec.Kind };

    ghost Whole: { List ℕ → Self → Type 0 };

    fn kind() -> Kind
        ensures { kind_means result ≡ kind };

    // The entry that s starts with.
    fn read(s: &[u8]) -> Result<Self, Refusal>
        ensures { IsRead (Whole s.now) (run (value kind) s.now 0) result };

    fn held(self) -> Held
        ensures { (s : List ℕ) → Whole s self → HeldIs kind s result };
}

impl Entry for Animation {
    ghost kind = { jnt };

    ghost Whole = { WholeAnimation };

    fn kind() -> Kind {
        Kind::Jnt
    }

    fn read(s: &[u8]) -> Result<Animation, Refusal> {
        read_animation(s)
    }

    fn held(self) -> Held {
        Held {
            frames: self.frames,
            count: self.objects,
            samples: self.samples,
            reach: self.reach,
        }
    }
}

impl Entry for MaterialAnimation {
    ghost kind = { srt };

    ghost Whole = { WholeMaterial };

    fn kind() -> Kind {
        Kind::Srt
    }

    fn read(s: &[u8]) -> Result<MaterialAnimation, Refusal> {
        read_mat_anim(s)
    }

    fn held(self) -> Held {
        Held {
            frames: self.frames,
            count: self.block.count,
            samples: self.samples,
            reach: self.reach,
        }
    }
}

impl Entry for Pattern {
    ghost kind = { pat };

    ghost Whole = { WholePattern };

    fn kind() -> Kind {
        Kind::Pat
    }

    fn read(s: &[u8]) -> Result<Pattern, Refusal> {
        read_pattern(s)
    }

    fn held(self) -> Held {
        Held {
            frames: self.frames,
            count: self.block.count,
            samples: self.samples,
            reach: self.reach,
        }
    }
}

// What the entry holds that s starts with.
fn read_held<E: Entry>(s: &[u8]) -> Result<Held, Refusal>
    ensures { ValueIs E.kind s.now result }
{
    Ok(E::read(s)?.held())
}

// .. an entry of this kind.
fn read_value(s: &[u8], kind: Kind) -> Result<Held, Refusal>
    ensures { ValueIs (kind_means kind) s.now result }
{
    match kind {
        Kind::Jnt => read_held::<Animation>(s),
        Kind::Srt => read_held::<MaterialAnimation>(s),
        Kind::Pat => read_held::<Pattern>(s),
    }
}

// The entry that stands here.
fn check_at(s: &[u8], kind: Kind, i: usize, e: EntryAt) -> Result<Checked, Refusal>
    requires { EntryReads s.now i (Ok e) }
    ensures { check_means result ≡ run (bind (entry (kind_means kind) i) (λ x. done (record_of (kind_means kind) x))) s.now 4 }
{
    let off = e.offset as usize;
    if s.len() < off {
        return Err(Refusal::TooShort);
    }
    let held = read_value(&s[off..], kind)?;
    Ok(Checked {
        name: name_at(s, e.name),
        reach: e.end.max(off + held.reach),
        frames: held.frames,
        count: held.count,
        samples: held.samples,
    })
}

// Entry i of a section whose stamp has been read.
pub fn check_entry(s: &[u8], kind: Kind, i: usize) -> Result<Checked, Refusal>
    requires { 4 ≤ length s.now }
    ensures { check_means result ≡ run (bind (entry (kind_means kind) i) (λ x. done (record_of (kind_means kind) x))) s.now 4 }
{
    let e = find_entry(s, i)?;
    check_at(s, kind, i, e)
}

// Entry i of a section of this kind, at an offset inside the section.
pub fn open(s: &[u8], kind: Kind, i: usize) -> Result<EntryAt, Refusal>
    ensures { OpenReads (kind_means kind) s.now i result }
{
    if read_stamp(s)? == kind {
        open_stamped(s, kind, i)
    } else {
        Err(Refusal::WrongStamp)
    }
}

// The same, once the stamp has been read.
fn open_stamped(s: &[u8], kind: Kind, i: usize) -> Result<EntryAt, Refusal>
    requires { run (stamped all_kinds) s.now 0 ≡ accepted 4 (kind_means kind) }
    ensures { OpenReads (kind_means kind) s.now i result }
{
    let e = find_entry(s, i)?;
    if s.len() < e.offset as usize {
        return Err(Refusal::TooShort);
    }
    Ok(e)
}

// Entry i, of a section of its kind, if it is whole: where it stands, and what is known of it.
pub fn open_whole<E: Entry>(s: &[u8], i: usize) -> Result<(EntryAt, E), Refusal>
    ensures { Opens E.kind E.Whole s.now i result }
{
    let e = open(s, E::kind(), i)?;
    let off = e.offset as usize;
    Ok((e, E::read(&s[off..])?))
}
