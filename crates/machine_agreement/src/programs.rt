//! Programs that are made from a seed.
use std::alloc::Global;

/// How many steps a program has.
const STEPS: u8 = 8;

/// How often a program's loop turns, what it starts with, and where it begins.
const START: &[u8] =
    b".text 0x00400000\n LUI $8,4096\n ADDIU $9,$0,3\n ADDIU $10,$0,5\n ADDIU $12,$0,3\n";

/// The end of the loop, an exit, and a function.
const END: &[u8] =
    b"ti: NOP\ntj: ADDIU $12,$12,-1\n BNE $12,$0,ta\n ADDIU $2,$0,1\n ADDIU $4,$0,0\n SYSCALL\nfun: ADDU $13,$13,$9\n JR $31\n";

/// Kinds of steps, each with its forms. A star stands for the label of the step after the next one.
const KINDS: [[&[u8]; 4]; 5] = [
    [
        b" ADDU $9,$10,$9\n",
        b" SUBU $10,$9,$10\n",
        b" ADDIU $11,$11,7\n",
        b" XOR $9,$11,$10\n",
    ],
    [
        b" LW $9,0($8)\n",
        b" SW $10,4($8)\n",
        b" LW $10,64($8)\n",
        b" SW $9,0($8)\n",
    ],
    [
        b" ANDI $14,$9,60\n ADDU $14,$8,$14\n SW $10,0($14)\n LW $11,4($8)\n",
        b" LW $15,0($8)\n ANDI $15,$15,28\n ADDU $15,$15,$8\n LW $9,0($15)\n",
        b" SB $9,5($8)\n LW $10,4($8)\n",
        b" ADDU $16,$8,$0\n SW $9,8($16)\n LW $11,8($8)\n",
    ],
    [
        b" MULT $9,$10\n MFLO $11\n",
        b" ADDIU $17,$0,3\n DIV $10,$17\n MFLO $9\n",
        b" MULTU $10,$12\n MFHI $9\n",
        b" JAL fun\n",
    ],
    [
        b" BEQ $9,$10,t*\n",
        b" BNE $9,$0,t*\n",
        b" ANDI $14,$9,1\n BEQ $14,$0,t*\n",
        b" SLT $14,$9,$10\n BNE $14,$0,t*\n",
    ],
];

/// The next number of a linear congruential generator.
fn next(number: u32) -> u32 {
    number.wrapping_mul(1_664_525).wrapping_add(1_013_904_223)
}

/// The kind of a step: the shape's own, or each third time any.
fn kind(shape: u32, number: u32) -> usize {
    let own = if shape < 5 { shape } else { (number >> 24) % 5 };
    if (number >> 16) % 3 == 0 {
        ((number >> 20) % 5) as usize
    } else {
        own as usize
    }
}

/// Adds text, with a letter for each star.
fn push(source: &mut Vec<u8>, text: &[u8], letter: u8) -> Option<()> {
    for byte in text {
        let it = if *byte == b'*' { letter } else { *byte };
        source.push(it).ok()?;
    }
    Some(())
}

/// The source of the program of a shape, below ten, and a seed. Shapes above four mix all kinds of steps.
/// None where there is too little memory.
pub fn program(alloc: Global, shape: u32, seed: u32) -> Option<Vec<u8>> {
    let mut source = Vec::new(alloc);
    let mut number = next(seed.wrapping_mul(10).wrapping_add(shape));
    push(&mut source, START, b'a')?;
    for step in 0..STEPS {
        number = next(number);
        push(&mut source, b"t*:", b'a'.wrapping_add(step))?;
        let form = ((number >> 28) % 4) as usize;
        let forms = KINDS.get(kind(shape, number));
        let text: &[u8] = match forms {
            Some(those) => those[form],
            None => b" NOP\n",
        };
        push(&mut source, text, b'c'.wrapping_add(step))?;
    }
    push(&mut source, END, b'a')?;
    Some(source)
}
