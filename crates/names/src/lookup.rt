// A word of the line among the names (specs/Names.antt): its capitals packed into a number, and that number searched among the
// names' own (specs/Inner/Packing.antt).
ghost use Rattle.std.specs.Prelude.{◌≡◌, ◌≤◌, ◌==◌, position};
ghost use Rattle.std.proofs.Math.Seq.{slice};
ghost use Rattle.names.specs.Names.{word_of, register_code};
ghost use Rattle.names.specs.Inner.Packing.{digit, number_of, word_at, directive_at};

use super::Word;
use isa::opcodes::opcode;

// The numbers of the 39 opcodes' names in the order of the opcodes, then of ORG, EQU, RES, DATA and END.
pub(crate) const STATEMENT_WORDS: [u64; 44] = [
    5263182, // NOP
    1414283592, // HALT
    1163284301, // MOVE
    1213420880, // PUSH
    5263184, // POP
    4473921, // ADD
    4347219, // SUB
    5002573, // MUL
    5654852, // DIV
    4476749, // MOD
    4410953, // INC
    4408644, // DEC
    4670798, // NEG
    5262659, // CMP
    4476481, // AND
    21071, // OR
    5394264, // XOR
    5525326, // NOT
    21058, // BR
    23106, // BZ
    5918274, // BNZ
    20546, // BP
    5262914, // BNP
    20034, // BN
    5131842, // BNN
    22082, // BV
    5656130, // BNV
    17218, // BC
    4410946, // BNC
    17730, // BE
    20290, // BO
    1280065859, // CALL
    5522770, // RET
    90440338722377, // INCHAR
    362090679881, // ININT
    353602063945, // INSTR
    90440338723415, // WRCHAR
    362090680919, // WRINT
    353602064983, // WRSTR
    4674127, // ORG
    5591365, // EQU
    5457234, // RES
    1096040772, // DATA
    4476485, // END
];

// The numbers of R0 to R9, A, SR, IX, IY, SP and PC.
pub(crate) const REGISTERS: [u64; 16] = [
    12370, // R0
    12626, // R1
    12882, // R2
    13138, // R3
    13394, // R4
    13650, // R5
    13906, // R6
    14162, // R7
    14418, // R8
    14674, // R9
    65, // A
    21075, // SR
    22601, // IX
    22857, // IY
    20563, // SP
    17232, // PC
];

// What the statement's word from `start` to `end` is.
pub fn statement_word(s: &[u8], start: usize, end: usize) -> Word
    ensures { result ≡ word_of (slice start end s.now) }
{
    match place(packed(s, start, end), &STATEMENT_WORDS) {
        Some(at) => word_at(at),
        None => Word::Unknown,
    }
}

// The code of the register that the word from `start` to `end` names, or 16.
pub fn register_code(s: &[u8], start: usize, end: usize) -> u16
    ensures { result ≡ register_code (slice start end s.now) }
{
    // 16, not None: specs/Names.antt counts a name's place so, and Top.antt speaks of the number
    place(packed(s, start, end), &REGISTERS).unwrap_or(16) as u16
}

// The digit of a byte in a word's number: a small letter counts as its capital.
#[tactic(auto, unfolding(crate::specs::Inner::Packing::digit, crate::specs::Names::capital))]
fn digit_of(b: u8) -> u8
    ensures { result ≡ digit b }
{
    if 1 <= b && b <= 127 {
        b.to_ascii_uppercase()
    } else {
        1
    }
}

// The number of the word from `start` to `end`, of which no more counts than there is.
fn packed(s: &[u8], start: usize, end: usize) -> u64
    ensures { result ≡ number_of (slice start end s.now) }
{
    let end = end.min(s.len());
    if end < start || 6 < end - start {
        return 0;
    }
    let mut number: u64 = 0;
    for i in (start..end).rev() {
        number = number * 256 + u64::from(digit_of(s[i]));
    }
    number
}

// The place of a number in a table.
fn place(number: u64, table: &[u64]) -> Option<usize>
    ensures { result ≡ position (λ known. known == number) table.now }
{
    table.iter().position(|known| *known == number)
}

// What stands at a place of the statements' words.
fn word_at(place: usize) -> Word
    requires { place ≤ 44 }
    ensures { result ≡ word_at place }
{
    match opcode(place as u16) {
        Some(op) => Word::Instructs(op),
        None => directive(place - 39),
    }
}

// The directive at a place after the opcodes.
#[tactic(auto, unfolding(crate::specs::Inner::Packing::directive_at, crate::specs::Inner::Packing::directives))]
fn directive(place: usize) -> Word
    ensures { result ≡ directive_at place }
{
    match place {
        0 => Word::Org,
        1 => Word::Equ,
        2 => Word::Res,
        3 => Word::Data,
        4 => Word::End,
        _ => Word::Unknown,
    }
}
