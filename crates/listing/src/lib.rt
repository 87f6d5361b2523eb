// What motion-list prints of a section, as text in a lent array: its kind, how many entries it has, and the lines of each entry.
#![tactic(auto)]

ghost use Rattle.std.specs.Prelude.{◌++◌, ◌≡◌, ◌+◌, ◌*◌, ◌<◌, ◌≤◌, length, take, drop};
ghost use Rattle.std.proofs.lemmas.List.Edits.{sets};
ghost use Rattle.util.specs.View.{view};
ghost use Rattle.util.specs.Reader.{run};
ghost use Rattle.nitro.specs.ContainerCode.{kind_means};
ghost use Rattle.nitro.specs.EntryCode.{check_means};
ghost use Rattle.calls.specs.Calls.{answer};
ghost use Rattle.calls.specs.Calls as calls;
ghost use Rattle.util.specs.RefusalCode.{number_of};
ghost use Rattle.text.specs.Text.{ascii, decimal, line};
ghost use Rattle.listing.specs.Listing.{stamp_text, count_line, entry_lines, entries_from, total_lines, accepted_in, refused_in, samples_in, section_lines, body, listing, outcome_lines};
ghost use Rattle.text.specs.Writes.{room};
ghost use Rattle.text.specs.WritesCode.{pushed};
ghost use Rattle.listing.specs.SectionCode.{block_outcome, header_from, totals_with, FewTotals};

use info_block::InfoBlock;
use motion::check;
use nitro::container::{Kind, read_section, read_stamp};
use nitro::entry::Checked;
use text::{ROOM, Text};
use util::refusal::Refusal;

// The digits that objects are told in.
const OBJECT_DIGITS: usize = 3;

// The answer's line of a refusal.
fn push_refusal(text: &mut Text<'_>, e: Refusal)
    ensures { text.new ≡ pushed text.old (line "answer" (decimal (number_of e))) }
{
    text.push_answer(e.into());
}

// How many objects or tracks an entry has.
fn push_count(text: &mut Text<'_>, kind: Kind, n: usize)
    ensures { text.new ≡ pushed text.old (count_line (kind_means kind) n) }
{
    match kind {
        Kind::Jnt => text.push_digits_line(b"objects=", n, OBJECT_DIGITS),
        Kind::Srt | Kind::Pat => text.push_decimal_line(b"tracks=", n),
    }
}

// The answer's line; where the entry is accepted, the lines of its record after it.
#[tactic(auto, using(text::proofs::WritesLaws::pushed_on), unfolding(crate::specs::Listing::outcome_lines))]
fn push_check(text: &mut Text<'_>, kind: Kind, found: Result<Checked, Refusal>)
    ensures { text.new ≡ pushed text.old (outcome_lines (kind_means kind) (check_means found)) }
{
    match found {
        Err(e) => push_refusal(text, e),
        Ok(e) => {
            text.push_answer(0);
            text.push_decimal_line(b"reach=", e.reach);
            text.push_decimal_line(b"frames=", e.frames as usize);
            push_count(text, kind, e.count);
        }
    }
}

// The lines of entry i, whose name stands at p and whose check found this.
fn push_entry(
    text: &mut Text<'_>,
    s: &[u8],
    kind: Kind,
    i: usize,
    p: usize,
    found: Result<Checked, Refusal>,
)
    requires { (p + 16 ≤ length s.now) × (check_means found ≡ answer (calls.check i) s.now) }
    ensures { text.new ≡ pushed text.old (entry_lines (kind_means kind) s.now i (take 16 (drop p s.now))) }
{
    text.push_decimal_line(b"entry=", i);
    text.push_hex_line(b"name=", &s[p..p + 16]);
    push_check(text, kind, found);
}

// How many entries were accepted and refused, and how many samples the accepted ones have.
#[derive(Clone, Copy)]
struct Totals {
    accepted: usize,
    refused: usize,
    samples: u64,
}

// The totals with one entry more.
fn add_check(t: Totals, found: Result<Checked, Refusal>) -> Totals
    requires { FewTotals t found }
    ensures { result ≡ totals_with t (check_means found) }
{
    let mut r = t;
    match found {
        Err(_) => {
            r.refused = t.refused + 1;
        }
        Ok(e) => {
            r.accepted = t.accepted + 1;
            r.samples = t.samples + e.samples;
        }
    }
    r
}

#[tactic(auto, using(text::proofs::WritesLaws::pushed_on))]
fn push_totals(text: &mut Text<'_>, t: Totals)
    ensures { text.new ≡ pushed text.old (total_lines t.accepted t.refused t.samples) }
{
    text.push_decimal_line(b"accepted=", t.accepted);
    text.push_decimal_line(b"refused=", t.refused);
    text.push_decimal_line(b"samples=", t.samples as usize);
}

// The lines of each entry, and the totals after the last; the names stand at `names`, one after the other.
fn push_entries(text: &mut Text<'_>, s: &[u8], kind: Kind, names: usize, count: usize)
    requires { (count < 256) × (names + 16 * count ≤ length s.now) }
    ensures { text.new ≡ pushed text.old (entries_from (kind_means kind) s.now 0 (view 16 (λ bs. bs) count (drop names s.now)) ++ total_lines (accepted_in s.now count) (refused_in s.now count) (samples_in s.now count)) }
{
    let mut totals = Totals {
        accepted: 0,
        refused: 0,
        samples: 0,
    };
    for i in 0..count {
        let found = check(s, i);
        push_entry(text, s, kind, i, names + 16 * i, found);
        totals = add_check(totals, found);
    }
    push_totals(text, totals);
}

// The section's kind.
fn push_stamp(text: &mut Text<'_>, kind: Kind)
    ensures { text.new ≡ pushed text.old (line "section" (ascii (stamp_text (kind_means kind)))) }
{
    match kind {
        Kind::Jnt => text.push(b"section=JNT0\n"),
        Kind::Srt => text.push(b"section=SRT0\n"),
        Kind::Pat => text.push(b"section=PAT0\n"),
    }
}

// A section with this info block: its kind, the count, at most 255 entries, and the totals.
fn push_block(text: &mut Text<'_>, s: &[u8], kind: Kind, b: InfoBlock)
    requires { (b.count < 256) × (b.names + 16 * b.count ≤ length s.now) }
    ensures { text.new ≡ pushed text.old (section_lines s.now (block_outcome s.now (kind_means kind) b)) }
{
    push_stamp(text, kind);
    text.push_decimal_line(b"entries=", b.count);
    push_entries(text, s, kind, b.names, b.count);
}

// A section with this kind's stamp.
fn push_kind(text: &mut Text<'_>, s: &[u8], kind: Kind)
    requires { 4 ≤ length s.now }
    ensures { text.new ≡ pushed text.old (section_lines s.now (run (header_from (kind_means kind)) s.now 4)) }
{
    match read_section(s) {
        Err(e) => push_refusal(text, e),
        Ok(b) => push_block(text, s, kind, b),
    }
}

// All that stands below the first line.
fn push_body(text: &mut Text<'_>, s: &[u8])
    ensures { text.new ≡ pushed text.old (body s.now) }
{
    if 65536 < s.len() {
        return push_refusal(text, Refusal::LongSection);
    }
    match read_stamp(s) {
        Err(e) => push_refusal(text, e),
        Ok(kind) => push_kind(text, s, kind),
    }
}

// The listing, from the start of `out` on; answers its length.
pub fn list_section(s: &[u8], out: &mut [u8; ROOM]) -> usize
    ensures { (result ≡ length (listing s.now)) × (out.new ≡ sets out.old 0 (listing s.now)) × (result ≤ room) }
{
    let mut text = Text::new(out);
    text.push_decimal_line(b"listing=", 2);
    push_body(&mut text, s);
    text.len()
}
