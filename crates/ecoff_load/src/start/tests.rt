use super::*;

/// Adds strings of these texts.
fn push_all(alloc: Global, strings: &mut Vec<String>, texts: &[&str]) -> Result<(), AllocError> {
    for text in texts {
        strings.push(String::from_str(alloc, text)?)?;
    }
    Ok(())
}

/// Whether the start block of these arguments is this one.
fn is_block(alloc: Global, args: &[String], big: bool, want: &[u8]) -> bool {
    match start_block(alloc, args, big) {
        Ok(block) => block.as_slice() == want,
        Err(_) => false,
    }
}

/// Whether these texts have these start blocks, little-endian and big-endian.
fn have_blocks(alloc: Global, texts: &[&str], little: &[u8], big: &[u8]) -> bool {
    let mut args = Vec::new(alloc);
    let made = push_all(alloc, &mut args, texts).is_ok();
    let first = is_block(alloc, args.as_slice(), false, little);
    made & first & is_block(alloc, args.as_slice(), true, big)
}

const ONE_LITTLE: [u8; 19] = [
    1, 0, 0, 0, 0x10, 0x80, 0xff, 0x7f, 0, 0, 0, 0, 0, 0, 0, 0, 0x70, 0x31, 0,
];

const ONE_BIG: [u8; 19] = [
    0, 0, 0, 1, 0x7f, 0xff, 0x80, 0x10, 0, 0, 0, 0, 0, 0, 0, 0, 0x70, 0x31, 0,
];

const THREE_LITTLE: [u8; 31] = [
    3, 0, 0, 0, 0x18, 0x80, 0xff, 0x7f, 0x1b, 0x80, 0xff, 0x7f, 0x1c, 0x80, 0xff, 0x7f, 0, 0, 0, 0,
    0, 0, 0, 0, 0x70, 0x31, 0, 0, 0x61, 0x62, 0,
];

const THREE_BIG: [u8; 31] = [
    0, 0, 0, 3, 0x7f, 0xff, 0x80, 0x18, 0x7f, 0xff, 0x80, 0x1b, 0x7f, 0xff, 0x80, 0x1c, 0, 0, 0, 0,
    0, 0, 0, 0, 0x70, 0x31, 0, 0, 0x61, 0x62, 0,
];

#[test]
fn blocks_have_argc_pointers_zeros_and_strings(rt: HostRuntime) {
    let none = have_blocks(rt.alloc(), &[], &[0; 12], &[0; 12]);
    let one = have_blocks(rt.alloc(), &["p1"], &ONE_LITTLE, &ONE_BIG);
    let three = have_blocks(rt.alloc(), &["p1", "", "ab"], &THREE_LITTLE, &THREE_BIG);
    assert!(rt; none & one & three);
}

/// Makes a text of so many letters.
fn fill(text: &mut String, length: usize) -> Result<(), AllocError> {
    for _ in 0..length {
        text.push('a')?;
    }
    Ok(())
}

/// One argument of so many letters.
fn long_argument(alloc: Global, length: usize) -> Result<Vec<String>, AllocError> {
    let mut text = String::new(alloc);
    fill(&mut text, length)?;
    let mut args = Vec::new(alloc);
    args.push(text)?;
    Ok(args)
}

/// Whether one argument of so many letters has a block of this length, or none for this reason.
fn has_length(alloc: Global, length: usize, want: Result<usize, StartFault>) -> bool {
    match long_argument(alloc, length) {
        Ok(args) => match start_block(alloc, args.as_slice(), false) {
            Ok(block) => want == Ok(block.len()),
            Err(fault) => want == Err(fault),
        },
        Err(_) => false,
    }
}

#[test]
fn a_block_of_more_than_16384_bytes_is_refused(rt: HostRuntime) {
    let longest = has_length(rt.alloc(), 16367, Ok(16384));
    let longer = has_length(
        rt.alloc(),
        16368,
        Err(StartFault::TooLong { length: 16385 }),
    );
    let long = has_length(
        rt.alloc(),
        20000,
        Err(StartFault::TooLong { length: 20017 }),
    );
    assert!(rt; longest & longer & long);
}
