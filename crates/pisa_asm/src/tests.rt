ghost use Rattle.std.specs.Prelude.{◌<◌, ◌^◌, length};

use crate::{AsmFault, TextWhy, assemble, disassemble};
use ecoff_load::{Image, write};
use pisa_isa::decode;
use std::alloc::Global;

/// The object of three instructions at 0x00400000.
const THREE: [u8; 140] = [
    98, 1, 1, 0, 0, 0, 0, 0, 0, 0, 0, 0, 0, 0, 0, 0, 56, 0, 0, 0, 7, 1, 0, 0, 24, 0, 0, 0, 0, 0, 0,
    0, 0, 0, 0, 0, 0, 0, 64, 0, 0, 0, 64, 0, 0, 0, 0, 0, 0, 0, 0, 0, 0, 0, 0, 0, 0, 0, 0, 0, 0, 0,
    0, 0, 0, 0, 0, 0, 0, 0, 0, 0, 0, 0, 0, 0, 46, 116, 101, 120, 116, 0, 0, 0, 0, 0, 64, 0, 0, 0,
    64, 0, 24, 0, 0, 0, 116, 0, 0, 0, 0, 0, 0, 0, 0, 0, 0, 0, 0, 0, 0, 0, 32, 0, 0, 0, 67, 0, 0, 0,
    1, 0, 2, 0, 67, 0, 0, 0, 7, 0, 4, 0, 160, 0, 0, 0, 0, 0, 0, 0,
];

/// Whether a source gives an object with these bytes.
fn gives_object(alloc: Global, source: &[u8], expected: &[u8]) -> bool
    requires { length source.now < 2 ^ 32 }
{
    let Ok(image) = assemble(alloc, source) else {
        return false;
    };
    if !image.fits() {
        return false;
    }
    match write(alloc, &image) {
        Ok(object) => object.as_slice() == expected,
        Err(_) => false,
    }
}

#[test]
fn the_first_object_comes_from_its_four_lines(rt: HostRuntime) {
    let source = b".text 0x00400000\nADDIU $2,$0,1\nADDIU $4,$0,7\nSYSCALL";
    assert!(rt; gives_object(rt.alloc(), source, &THREE));
}

/// What is expected of an image: its entry, the address and the length of its text, words of its
/// text with their addresses, and its parts with address, size and bytes.
struct Expected {
    entry: u32,
    start: u32,
    length: usize,
    words: &'static [(u32, (u32, u32))],
    parts: &'static [(u32, u32, &'static [u8])],
}

/// Whether an image has these words and these parts.
fn has(image: &Image, expected: &Expected) -> bool {
    let parts = image.parts.as_slice();
    image.entry == expected.entry
        && image.text.start == expected.start
        && image.text.bytes.as_slice().len() == expected.length
        && expected
            .words
            .iter()
            .all(|(pc, words)| image.text.at(*pc) == Some(*words))
        && parts.len() == expected.parts.len()
        && parts.iter().zip(expected.parts).all(|(part, (addr, size, bytes))| {
            part.addr == *addr && part.size == *size && part.bytes.as_slice() == *bytes
        })
}

/// Whether a source describes what is expected.
fn describes(alloc: Global, source: &[u8], expected: &Expected) -> bool
    requires { length source.now < 2 ^ 32 }
{
    match assemble(alloc, source) {
        Ok(image) => has(&image, expected),
        Err(_) => false,
    }
}

/// The source with a section of each kind.
const ALL_SECTIONS: &str = ".text 0x00400140
ADDIU $2,$0,17
LUI $4,4097
SYSCALL
LUI $8,4096
ORI $8,$8,0x9000
SW $2,0($8)
LUI $5,4096
ORI $9,$5,0x8000
LW $6,0($9)
ADDIU $2,$0,4
ADDIU $4,$0,1
SYSCALL
ADDIU $2,$0,1
ADDIU $4,$0,0
SYSCALL
.data 0x10000000
.ascii \"hello\\n\"
.rdata 0x10004000
.word 1
.sdata 0x10008000
.word 6
.sbss 0x10008800
.space 8
.bss 0x10009000
.space 64
";

static SECTIONS: Expected = Expected {
    entry: 0x0040_0140,
    start: 0x0040_0140,
    length: 120,
    words: &[
        (0x0040_0140, (0x43, 0x0002_0011)),
        (0x0040_0148, (0xa2, 0x0004_1001)),
        (0x0040_0150, (0xa0, 0)),
        (0x0040_0160, (0x51, 0x0808_9000)),
        (0x0040_0168, (0x34, 0x0802_0000)),
        (0x0040_0180, (0x28, 0x0906_0000)),
        (0x0040_01b0, (0xa0, 0)),
    ],
    parts: &[
        (0x1000_0000, 6, b"hello\n"),
        (0x1000_4000, 4, &[1, 0, 0, 0]),
        (0x1000_8000, 4, &[6, 0, 0, 0]),
        (0x1000_8800, 8, &[]),
        (0x1000_9000, 64, &[]),
    ],
};

#[test]
fn a_source_with_all_sections_gives_its_image(rt: HostRuntime) {
    assert!(rt; describes(rt.alloc(), ALL_SECTIONS.as_bytes(), &SECTIONS));
}

/// A statement at 0x00400000 with its two words, for each form of operands.
static FORMS: [(&str, u32, u32); 21] = [
    ("NOP", 0x00, 0),
    ("J 0x00400010", 0x01, 0x0010_0004),
    ("JR $31", 0x03, 0x1f00_0000),
    ("MFHI $5", 0x4a, 0x0000_0500),
    ("JALR $31,$4", 0x04, 0x0400_1f00),
    ("MULT $6,$7", 0x46, 0x0607_0000),
    ("BLEZ $3,0x00400000", 0x07, 0x0300_fffe),
    ("BEQ $1,$2,0x00400010", 0x05, 0x0102_0002),
    ("BNE $1,$2,0x0041fffc", 0x06, 0x0102_7ffd),
    ("DSZ -8($9)", 0x38, 0x0900_fff8),
    ("DSZ_RR ($3+$4)", 0xd1, 0x0300_0400),
    ("LW $6,32767($9)", 0x28, 0x0906_7fff),
    ("DSW $30,-32768($29)", 0x35, 0x1d1e_8000),
    ("LB_RR $2,($3+$4)", 0xc0, 0x0302_0400),
    ("ADD $1,$2,$3", 0x40, 0x0203_0100),
    ("SLLV $1,$2,$3", 0x56, 0x0302_0100),
    ("SLL $1,$2,31", 0x55, 0x0002_011f),
    ("ADDIU $2,$0,-1", 0x43, 0x0002_ffff),
    ("ANDI $2,$3,65535", 0x4f, 0x0302_ffff),
    ("LUI $4,4097", 0xa2, 0x0004_1001),
    ("SYSCALL", 0xa0, 0),
];

/// Whether two words are printed as this line at an address.
fn prints(first: u32, second: u32, pc: u32, line: &str) -> bool {
    match decode(first, second) {
        Ok(i) => disassemble(&i, pc).as_str() == line,
        Err(_) => false,
    }
}

/// The two words that a source has at 0x00400000.
fn first_words(alloc: Global, source: &[u8]) -> Option<(u32, u32)>
    requires { length source.now < 2 ^ 32 }
{
    match assemble(alloc, source) {
        Ok(image) => image.text.at(0x0040_0000),
        Err(_) => None,
    }
}

/// Whether a statement has these two words, and they are printed as it.
fn comes_back(alloc: Global, line: &str, first: u32, second: u32) -> bool {
    let Ok(source) = format!(in alloc; ".text 0x00400000\n{line}\n") else {
        return false;
    };
    let bytes = source.as_bytes();
    bytes.len() < 1000
        && first_words(alloc, bytes) == Some((first, second))
        && prints(first, second, 0x0040_0000, line)
}

#[test]
fn each_form_is_assembled_and_read_back(rt: HostRuntime) {
    let mut wrong = None;
    for (line, first, second) in &FORMS {
        if !comes_back(rt.alloc(), line, *first, *second) {
            wrong = Some(*line);
        }
    }
    assert_eq!(rt; wrong, None);
}

#[test]
fn an_operation_of_floating_point_is_printed_by_its_name(rt: HostRuntime) {
    assert!(rt; prints(0x70, 0, 0, "ADD_S"));
}

/// A program with labels, comments, blanks, escapes and numbers of all sizes.
const LABELS: &str = "  .text 0x00400000 # the program
.entry start
first: NOP
start:\tADDIU $8 , $0 , 0x3#three
again:ADDIU $8,$8,-1\r
  BNE $8,$0,again
end:
  J start
base: .data 0x10000000
text: .ascii \"a#\\n\\\"\\\\\\0\\t\" # not a comment inside
.byte -128
.byte 255
.half -32768
.half 65535
.word -2147483648
.word 4294967295
.word again
.word base
.word behind
.bss 0x20000000
behind: .space 3
.half_label:
";

static LABELLED: Expected = Expected {
    entry: 0x0040_0008,
    start: 0x0040_0000,
    length: 40,
    words: &[
        (0x0040_0000, (0x00, 0)),
        (0x0040_0008, (0x43, 0x0008_0003)),
        (0x0040_0010, (0x43, 0x0808_ffff)),
        (0x0040_0018, (0x06, 0x0800_fffc)),
        (0x0040_0020, (0x01, 0x0010_0002)),
    ],
    parts: &[
        (
            0x1000_0000,
            33,
            &[
                97, 35, 10, 34, 92, 0, 9, 128, 255, 0, 128, 255, 255, 0, 0, 0, 128, 255, 255, 255,
                255, 16, 0, 64, 0, 0, 0, 0, 16, 0, 0, 0, 32,
            ],
        ),
        (0x2000_0000, 3, &[]),
    ],
};

#[test]
fn labels_stand_for_the_addresses_of_their_lines(rt: HostRuntime) {
    let source = LABELS.as_bytes();
    let without_its_last_line = source.split_at(source.len().saturating_sub(13)).0;
    let right = refusal(rt.alloc(), source) == Some((22, TextWhy::Mnemonic))
        && describes(rt.alloc(), without_its_last_line, &LABELLED);
    assert!(rt; right);
}

/// The example of docs/assembler.md.
const EXAMPLE: &str = "# prints a greeting and ends with status 0
.text 0x00400000
.entry start
start: ADDIU $2,$0,4          # the call \"write\"
       ADDIU $4,$0,1          # to standard output
       LUI   $5,4096          # from 0x10000000
       ADDIU $6,$0,6          # six bytes
       SYSCALL
       ADDIU $8,$0,3
again: ADDIU $8,$8,-1         # counts down from 3
       BNE   $8,$0,again
       ADDIU $2,$0,1          # the call \"exit\"
       ADDIU $4,$0,0
       SYSCALL
.data 0x10000000
hello: .ascii \"hello\\n\"
       .word hello
.bss 0x10001000
table: .space 64
";

static GREETING: Expected = Expected {
    entry: 0x0040_0000,
    start: 0x0040_0000,
    length: 88,
    words: &[(0x0040_0038, (0x06, 0x0800_fffc))],
    parts: &[
        (0x1000_0000, 10, &[104, 101, 108, 108, 111, 10, 0, 0, 0, 16]),
        (0x1000_1000, 64, &[]),
    ],
};

#[test]
fn the_example_of_the_page_is_assembled(rt: HostRuntime) {
    assert!(rt; describes(rt.alloc(), EXAMPLE.as_bytes(), &GREETING));
}

/// The line and the reason for which a source is refused.
fn refusal(alloc: Global, source: &[u8]) -> Option<(u32, TextWhy)>
    requires { length source.now < 2 ^ 32 }
{
    match assemble(alloc, source) {
        Err(AsmFault::Bad { line, why }) => Some((line, why)),
        _ => None,
    }
}

/// Sources that are wrong, with the line and the reason that are told.
static WRONG: [(&str, u32, TextWhy); 66] = [
    ("\u{1}", 1, TextWhy::Char),
    ("# caf\u{7f}", 1, TextWhy::Char),
    (".text 0x00400000\nFOO \u{2}", 2, TextWhy::Char),
    (".text 0x00400000\nNOP\n.text 8", 3, TextWhy::Twice),
    (".text 0x00400000\na: NOP\na: NOP", 3, TextWhy::Twice),
    (".text 0x00400000\na: NOP\na: FOO", 3, TextWhy::Twice),
    (".entry a\n.entry b", 2, TextWhy::Twice),
    (".text 0x00400000\n.text", 2, TextWhy::Twice),
    (".text", 1, TextWhy::Missing),
    (".text 0x00400000\nADDIU $1,$2", 2, TextWhy::Missing),
    (".text 0x00400000\nADDIU $1,,3", 2, TextWhy::Missing),
    (".text 0x00400000\nNOP ,", 2, TextWhy::Missing),
    (".text 0x00400000\nADDIU $40,x", 2, TextWhy::Missing),
    (".data 0\n.ascii", 2, TextWhy::Missing),
    (".text x", 1, TextWhy::Number),
    (".text 0x", 1, TextWhy::Number),
    (".text 0x123456789", 1, TextWhy::Number),
    (".text 012", 1, TextWhy::Number),
    (".text - 1", 1, TextWhy::Number),
    (".text 0x00400000\nADDIU $1,$2,x", 2, TextWhy::Number),
    (".text 0x00400000\nADDIU $99,$2,x", 2, TextWhy::Number),
    (".text 0x00400000\nSLL $1,$2,1 1", 2, TextWhy::Number),
    (".text 0x00400000\nLW $1,a($2)", 2, TextWhy::Number),
    (".text 4294967296", 1, TextWhy::Range),
    (".text -1", 1, TextWhy::Range),
    (".text 99999999999999999999999", 1, TextWhy::Range),
    (".text 0x00400000\nADDIU $1,$2,32768", 2, TextWhy::Range),
    (".text 0x00400000\nADDIU $1,$2,-32769", 2, TextWhy::Range),
    (".text 0x00400000\nANDI $1,$2,-1", 2, TextWhy::Range),
    (".text 0x00400000\nSLL $1,$2,32", 2, TextWhy::Range),
    (".text 0x00400000\nJR $32", 2, TextWhy::Range),
    (".text 0x00400000\nDLW $31,0($1)", 2, TextWhy::Range),
    (".text 0x00400000\nBEQ $1,$2,0x00420008", 2, TextWhy::Range),
    (".text 0x00400000\nBEQ $1,$2,0x00400002", 2, TextWhy::Range),
    (".text 0x00400000\nJ 0x10000000", 2, TextWhy::Range),
    (".text 0x00400000\nJ 4294967296", 2, TextWhy::Range),
    (".text 0x00400000\nBEQ $1,x y,4294967296", 2, TextWhy::Range),
    (".data 0\n.byte 256", 2, TextWhy::Range),
    (".bss 0\n.space 4194305", 2, TextWhy::Range),
    (".data 256\na: .byte a", 2, TextWhy::Range),
    (
        ".text 0x00400000\nJ a\n.data 0x10000000\na:",
        2,
        TextWhy::Range,
    ),
    (".text 0x00400000\nJR 31", 2, TextWhy::Form),
    (".text 0x00400000\nJR $01", 2, TextWhy::Form),
    (".text 0x00400000\nLW $1,4", 2, TextWhy::Form),
    (".text 0x00400000\nLW $1,($2)", 2, TextWhy::Form),
    (".text 0x00400000\nLB_RR $1,($2)", 2, TextWhy::Form),
    (".text 0x00400000\nJ 1x", 2, TextWhy::Form),
    (".entry 4", 1, TextWhy::Form),
    (".data 0\n.ascii \"a", 2, TextWhy::Form),
    (".data 0\n.ascii \"\\q\"", 2, TextWhy::Form),
    (".text 0x00400000\nNOP 1", 2, TextWhy::Extra),
    (".text 0x00400000\nJR $1,$2", 2, TextWhy::Extra),
    (".data 0\n.ascii \"a\" b", 2, TextWhy::Extra),
    ("FOO $1", 1, TextWhy::Mnemonic),
    (".text 0x00400000\nnop", 2, TextWhy::Mnemonic),
    (".text 0x00400000\n.word1 2", 2, TextWhy::Mnemonic),
    (".text 0x00400000\nADD_S", 2, TextWhy::Mnemonic),
    (".text 0x00400000\n1a: NOP", 2, TextWhy::Mnemonic),
    (".text 0x00400000\na: b: NOP", 2, TextWhy::Mnemonic),
    ("NOP", 1, TextWhy::Section),
    ("a:", 1, TextWhy::Section),
    (".text 0x00400000\n.word 1", 2, TextWhy::Section),
    (".bss 0\n.word 1", 2, TextWhy::Section),
    (".data 0\n.word a\n.bss 8", 2, TextWhy::Label),
    ("", 0, TextWhy::Layout),
    (".text 4\nNOP", 0, TextWhy::Layout),
];

/// Whether a source is refused at this line for this reason.
fn is_refused(alloc: Global, source: &str, line: u32, why: TextWhy) -> bool {
    let bytes = source.as_bytes();
    bytes.len() < 1000 && refusal(alloc, bytes) == Some((line, why))
}

#[test]
fn each_reason_has_its_line(rt: HostRuntime) {
    let mut wrong = None;
    for (source, line, why) in &WRONG {
        if !is_refused(rt.alloc(), source, *line, *why) {
            wrong = Some(*source);
        }
    }
    assert_eq!(rt; wrong, None);
}
