// The lines, and the beginnings of lines, that are put together before they are copied out.
ghost use Rattle.std.specs.Prelude.{◌≡◌, [], ◌∷◌};
ghost use Rattle.field.specs.Spelling.{no_bytes, put_all};
ghost use Rattle.planner.specs.Kinds.{kind_byte};
ghost use Rattle.entries.specs.Printed.{hex_bytes, cycles_line, refusal_line};
ghost use Rattle.entries.specs.Lines.{kind_word, address_end, head_line};

use field::Spelling;
use planner::Kind;

fn put_kind(s: Spelling, kind: Kind) -> Spelling
    ensures { result ≡ put_all s (kind_word (kind_byte kind)) }
{
    match kind {
        Kind::SectorErase => s.word(b"sector-erase"),
        Kind::ChipErase => s.word(b"chip-erase"),
        Kind::Program => s.word(b"program"),
    }
}

// The three bytes of an address, high byte first.
fn put_address(s: Spelling, high: u8, middle: u8, low: u8) -> Spelling
    ensures { result ≡ put_all s (hex_bytes (high ∷ middle ∷ low ∷ [])) }
{
    s.hex(high).hex(middle).hex(low)
}

// A program's page follows its address.
fn put_end(s: Spelling, kind: Kind) -> Spelling
    ensures { result ≡ put_all s (address_end (kind_byte kind)) }
{
    match kind {
        Kind::Program => s.word(b"\t"),
        Kind::SectorErase | Kind::ChipErase => s.word(b"\n"),
    }
}

// Kind and address.
pub(crate) fn head_line(kind: Kind, high: u8, middle: u8, low: u8) -> Spelling
    ensures { result ≡ put_all no_bytes (head_line (kind_byte kind) high middle low) }
{
    let s = put_kind(Spelling::new(), kind).word(b"\t");
    put_end(put_address(s, high, middle, low), kind)
}

// The number of cycles.
#[tactic(auto, using(field::proofs::SpellingLaws::put_then), unfolding(crate::specs::Printed::cycles_line))]
pub(crate) fn cycles_line(number: u32) -> Spelling
    ensures { result ≡ put_all no_bytes (cycles_line number) }
{
    Spelling::new()
        .word(b"cycles\t")
        .decimal(number)
        .word(b"\n")
}

// A refusal's number.
// Kept: the answer is a number by the C interface, as in print_outcome.
#[tactic(auto, using(field::proofs::SpellingLaws::put_then), unfolding(crate::specs::Printed::refusal_line))]
pub(crate) fn refusal_line(answer: u32) -> Spelling
    ensures { result ≡ put_all no_bytes (refusal_line answer) }
{
    Spelling::new()
        .word(b"refused\t")
        .decimal(answer)
        .word(b"\n")
}
