// The three programs as words: what bench/*.ens say, encoded.

// bench/arithmetic.ens
pub(crate) const ARITHMETIC: [u16; 58] = [
    138, // MOVE #1, .R1
    1, 1, 656, // next: INC .R0
    0, 465, // MUL .R1, #25173
    1, 25173, 337, // ADD .A, #13849
    10, 13849, 146, // MOVE .A, .R1
    10, 1, 850, // CMP .R1, .R0
    1, 0, 1528, // BN $below
    18, 338, // ADD .R2, .R1
    2, 1, 146, // MOVE .A, .R2
    10, 2, 1784, // BC $carry
    2, 1176, // BR /next
    3, 402, // carry: SUB .R3, .R2
    3, 2, 146, // MOVE .A, .R3
    10, 3, 1176, // BR /next
    3, 913, // below: AND .R1, #0x00FF
    1, 255, 337, // ADD .A, #3
    10, 3, 466, // MUL .R4, .A
    4, 10, 338, // ADD .A, .R1
    10, 1, 146, // MOVE .A, .R4
    10, 4, 1912, // BE $next
    65485, 656, // INC .R5
    5, 1176, // BR /next
    3,
];

// bench/table.ens
pub(crate) const TABLE: [u16; 62] = [
    138, // MOVE #1023, .SP
    1023, 14, 138, // pass: MOVE #0, .IX
    0, 12, 138, // MOVE #table, .R1
    52, 1, 138, // MOVE #300, .IY
    300, 13, 363, // walk: ADD #table[.IX], /sum
    52, 50, 147, // MOVE .A, /sum
    10, 50, 224, // PUSH [.R1]
    1, 1042, // XOR .A, .IX
    10, 12, 149, // MOVE .A, #table[.IX]
    10, 52, 232, // PUSH #table[.IX]
    52, 447, // SUB #1[.SP], #2[.SP]
    1, 2, 150, // MOVE .A, #table[.IY]
    10, 52, 272, // POP .R2
    2, 288, // POP [.R1]
    1, 656, // INC .IX
    12, 656, // INC .R1
    1, 720, // DEC .IY
    13, 1336, // BNZ $walk
    65502, 664, // INC /passes
    51, 1176, // BR /pass
    3, 1, // sum: DATA 1
    0, // passes: DATA 0
    3, // table: DATA 3, 1, 4, 1, 5, 9, 2, 6, 5, 3
    1, 4, 1, 5, 9, 2, 6, 5, 3,
];

// bench/text.ens
pub(crate) const TEXT: [u16; 53] = [
    2456, // turn: WRSTR /line
    12, 656, // INC .R0
    0, 338, // ADD .R1, .R0
    1, 0, 146, // MOVE .A, .R1
    10, 1, 1176, // BR /turn
    0, 76, // line: DATA "Level 3.72 m, pump 2 on, valve 4 closed\n"
    101, 118, 101, 108, 32, 51, 46, 55, 50, 32, 109, 44, 32, 112, 117, 109, 112, 32, 50, 32, 111,
    110, 44, 32, 118, 97, 108, 118, 101, 32, 52, 32, 99, 108, 111, 115, 101, 100, 10, 0,
];

// Puts a program's words at the start of memory, as far as it goes.
pub(crate) fn load(m: &mut [u16], words: &[u16]) {
    for (cell, word) in m.iter_mut().zip(words) {
        *cell = *word;
    }
}
