use crate::{Image, Kind, ObjectFault, ObjectWhy, Part, Parts, Text, object_length, read, write};
use ss_base::Bytes;
use std::alloc::{AllocError, Global};

/// An object of three instructions at 0x00400000, little-endian.
const LITTLE: [u8; 140] = [
    98, 1, 1, 0, 0, 0, 0, 0, 0, 0, 0, 0, 0, 0, 0, 0, 56, 0, 0, 0, 7, 1, 0, 0, 24, 0, 0, 0, 0, 0, 0,
    0, 0, 0, 0, 0, 0, 0, 64, 0, 0, 0, 64, 0, 0, 0, 0, 0, 0, 0, 0, 0, 0, 0, 0, 0, 0, 0, 0, 0, 0, 0,
    0, 0, 0, 0, 0, 0, 0, 0, 0, 0, 0, 0, 0, 0, 46, 116, 101, 120, 116, 0, 0, 0, 0, 0, 64, 0, 0, 0,
    64, 0, 24, 0, 0, 0, 116, 0, 0, 0, 0, 0, 0, 0, 0, 0, 0, 0, 0, 0, 0, 0, 32, 0, 0, 0, 67, 0, 0, 0,
    1, 0, 2, 0, 67, 0, 0, 0, 7, 0, 4, 0, 160, 0, 0, 0, 0, 0, 0, 0,
];

/// The same, big-endian.
const BIG: [u8; 140] = [
    1, 96, 0, 1, 0, 0, 0, 0, 0, 0, 0, 0, 0, 0, 0, 0, 0, 56, 0, 0, 1, 7, 0, 0, 0, 0, 0, 24, 0, 0, 0,
    0, 0, 0, 0, 0, 0, 64, 0, 0, 0, 64, 0, 0, 0, 0, 0, 0, 0, 0, 0, 0, 0, 0, 0, 0, 0, 0, 0, 0, 0, 0,
    0, 0, 0, 0, 0, 0, 0, 0, 0, 0, 0, 0, 0, 0, 46, 116, 101, 120, 116, 0, 0, 0, 0, 64, 0, 0, 0, 64,
    0, 0, 0, 0, 0, 24, 0, 0, 0, 116, 0, 0, 0, 0, 0, 0, 0, 0, 0, 0, 0, 0, 0, 0, 0, 32, 0, 0, 0, 67,
    0, 2, 0, 1, 0, 0, 0, 67, 0, 4, 0, 7, 0, 0, 0, 160, 0, 0, 0, 0,
];

/// The two words at an address of the text of both objects, where an instruction stands.
const WORDS: [(u32, Option<(u32, u32)>); 7] = [
    (0x003f_fff8, None),
    (0x0040_0000, Some((0x43, 0x0002_0001))),
    (0x0040_0004, None),
    (0x0040_0008, Some((0x43, 0x0004_0007))),
    (0x0040_0010, Some((0xa0, 0))),
    (0x0040_0018, None),
    (0xffff_fff8, None),
];

/// Whether an image is that of the two objects.
fn is_known(image: &Image, big: bool) -> bool {
    let head = (image.entry == 0x0040_0000) & (image.text.start == 0x0040_0000);
    let size = image.text.bytes.as_slice().len() == 24;
    let parts = image.parts.as_slice().len() == 0;
    let mut all = head & size & parts & (image.text.big == big);
    for (pc, words) in WORDS {
        all = all & (image.text.at(pc) == words);
    }
    all
}

/// Whether an image is written as these bytes.
fn is_written(alloc: Global, image: &Image, bytes: &[u8]) -> bool {
    if !image.fits() {
        return false;
    }
    if bytes.len() > 0x0fff_ffff || object_length(image) != bytes.len() as u64 {
        return false;
    }
    match write(alloc, image) {
        Ok(written) => written.as_slice() == bytes,
        Err(_) => false,
    }
}

/// Whether bytes are read as the image of the two objects, and written as they stood.
fn comes_back(alloc: Global, bytes: &[u8], big: bool) -> bool {
    match read(alloc, bytes) {
        Ok(image) => is_known(&image, big) & is_written(alloc, &image, bytes),
        Err(_) => false,
    }
}

#[test]
fn objects_of_both_byte_orders_are_read_and_written_as_they_stood(rt: HostRuntime) {
    assert!(rt; comes_back(rt.alloc(), &LITTLE, false) & comes_back(rt.alloc(), &BIG, true));
}

/// Whether the eight bytes from 1 to 8 are these two words.
fn are_words(alloc: Global, big: bool, words: (u32, u32)) -> bool {
    match Vec::from_slice(alloc, &[1, 2, 3, 4, 5, 6, 7, 8]) {
        Ok(bytes) => {
            let text = Text {
                start: 8,
                big,
                bytes: Bytes::from_vec(bytes),
            };
            text.at(8) == Some(words)
        }
        Err(_) => false,
    }
}

#[test]
fn words_are_formed_in_both_byte_orders(rt: HostRuntime) {
    let little = are_words(rt.alloc(), false, (0x0403_0201, 0x0807_0605));
    let big = are_words(rt.alloc(), true, (0x0102_0304, 0x0506_0708));
    assert!(rt; little & big);
}

/// Whether bytes are read, as a text that begins there, or refused so.
fn gives(alloc: Global, bytes: &[u8], want: Result<u32, ObjectFault>) -> bool {
    match read(alloc, bytes) {
        Ok(image) => want == Ok(image.text.start),
        Err(fault) => want == Err(fault),
    }
}

/// The place of some bytes, what is put there, and where and why they are refused.
const CHANGES: [(usize, [u8; 4], u64, ObjectWhy); 16] = [
    (0, [1, 96, 1, 0], 2, ObjectWhy::Sections),
    (0, [96, 1, 1, 0], 0, ObjectWhy::Magic),
    (0, [98, 0, 1, 0], 0, ObjectWhy::Magic),
    (0, [96, 1, 0, 0], 0, ObjectWhy::Magic),
    (2, [0, 0, 0, 0], 2, ObjectWhy::Sections),
    (2, [17, 0, 0, 0], 2, ObjectWhy::Sections),
    (2, [2, 0, 0, 0], 140, ObjectWhy::Short),
    (16, [57, 0, 0, 0], 16, ObjectWhy::OptHeader),
    (88, [4, 0, 64, 0], 88, ObjectWhy::TextAlign),
    (88, [248, 255, 255, 255], 88, ObjectWhy::Range),
    (88, [240, 255, 239, 127], 88, ObjectWhy::Range),
    (92, [0, 0, 0, 0], 92, ObjectWhy::TextSize),
    (92, [1, 0, 64, 0], 92, ObjectWhy::TextSize),
    (96, [255, 255, 255, 255], 140, ObjectWhy::Short),
    (112, [64, 0, 0, 0], 2, ObjectWhy::NoText),
    (112, [33, 0, 0, 0], 2, ObjectWhy::NoText),
];

/// Whether each change of the little-endian object is refused so.
fn changes_are_refused(alloc: Global) -> bool {
    let mut all = true;
    for (place, put, at, why) in CHANGES {
        let mut bytes = LITTLE;
        for (offset, byte) in put.into_iter().enumerate() {
            if let Some(slot) = bytes.get_mut(place.saturating_add(offset)) {
                *slot = byte;
            }
        }
        all = all & gives(alloc, &bytes, Err(ObjectFault::Bad { at, why }));
    }
    all
}

#[test]
fn changed_bytes_are_refused_at_the_first_check(rt: HostRuntime) {
    assert!(rt; changes_are_refused(rt.alloc()));
}

/// Whether each front of an object is short at its length.
fn fronts_are_short(alloc: Global, whole: &[u8]) -> bool {
    let mut all = true;
    for length in 0..whole.len() {
        let fault = ObjectFault::Bad {
            at: length as u64,
            why: ObjectWhy::Short,
        };
        all = all & gives(alloc, &whole[..length], Err(fault));
    }
    all
}

#[test]
fn a_cut_file_is_short_at_its_length(rt: HostRuntime) {
    assert!(rt; fronts_are_short(rt.alloc(), &LITTLE) & fronts_are_short(rt.alloc(), &BIG));
}

/// Address, size, place in the file, flags.
type Header = (u32, u32, u32, u32);

/// Makes a little-endian object with these section headers, and `more` zero bytes behind them.
fn put_object(
    bytes: &mut Vec<u8>,
    count: u8,
    headers: &[Header],
    more: usize,
) -> Result<(), AllocError> {
    bytes.clear();
    bytes.extend_from_slice(&[98, 1, count, 0])?;
    bytes.extend_from_slice(&[0; 12])?;
    bytes.extend_from_slice(&[56, 0, 0, 0])?;
    bytes.extend_from_slice(&[0; 56])?;
    for (addr, size, pointer, flags) in headers {
        bytes.extend_from_slice(&[0; 12])?;
        for word in [addr, size, pointer] {
            bytes.extend_from_slice(&word.to_le_bytes())?;
        }
        bytes.extend_from_slice(&[0; 12])?;
        bytes.extend_from_slice(&flags.to_le_bytes())?;
    }
    for _ in 0..more {
        bytes.push(0)?;
    }
    Ok(())
}

/// A text of two instructions.
const TEXT: Header = (0x0040_0000, 16, 156, 0x20);

/// The other section, whether it stands first, and where and why the object is refused.
const CASES: [(Header, bool, Option<(u64, ObjectWhy)>); 20] = [
    (
        (0x0050_0000, 16, 156, 0x20),
        false,
        Some((152, ObjectWhy::TextTwice)),
    ),
    (
        (4, 0, 0xffff_ffff, 0x20),
        false,
        Some((152, ObjectWhy::TextTwice)),
    ),
    (
        (4, 0, 0xffff_ffff, 0x20),
        true,
        Some((88, ObjectWhy::TextAlign)),
    ),
    (
        (0x7ff0_0000, 0, 0xffff_ffff, 0x20),
        true,
        Some((92, ObjectWhy::TextSize)),
    ),
    (
        (0x7fef_fff9, 8, 0xffff_ffff, 0x40),
        false,
        Some((128, ObjectWhy::Range)),
    ),
    (
        (0x7fef_fff8, 8, 0xffff_ffff, 0x40),
        false,
        Some((172, ObjectWhy::Short)),
    ),
    ((0x7fef_fff8, 8, 164, 0x100), false, None),
    (
        (0x7fef_fff8, 8, 165, 0x200),
        false,
        Some((172, ObjectWhy::Short)),
    ),
    (
        (0xffff_ffff, 1, 0, 0x80),
        false,
        Some((128, ObjectWhy::Range)),
    ),
    (
        (0x7ff0_0001, 0, 0, 0x400),
        true,
        Some((88, ObjectWhy::Range)),
    ),
    (
        (0x1000_0000, 0, 173, 0x40),
        false,
        Some((172, ObjectWhy::Short)),
    ),
    (
        (0x0040_000f, 1, 156, 0x40),
        false,
        Some((128, ObjectWhy::Overlap)),
    ),
    (
        (0x003f_ffff, 2, 156, 0x100),
        true,
        Some((88, ObjectWhy::Overlap)),
    ),
    ((0x003f_fff0, 16, 156, 0x200), false, None),
    ((0x0040_0010, 16, 156, 0x40), false, None),
    ((0x0040_0008, 0, 156, 0x40), false, None),
    ((0x0040_0000, 16, 0xffff_ffff, 0x80), false, None),
    ((0x0040_0000, 16, 0xffff_ffff, 0x400), true, None),
    ((0xffff_ffff, 0xffff_ffff, 0xffff_ffff, 0x60), false, None),
    ((0xffff_ffff, 0xffff_ffff, 0xffff_ffff, 0), true, None),
];

/// Whether each object of a text and another section is read or refused so.
fn cases_hold(alloc: Global, bytes: &mut Vec<u8>) -> bool {
    let mut all = true;
    for (other, first, want) in CASES {
        let headers = if first { [other, TEXT] } else { [TEXT, other] };
        let made = put_object(bytes, 2, &headers, 16).is_ok();
        let want = match want {
            None => Ok(0x0040_0000),
            Some((at, why)) => Err(ObjectFault::Bad { at, why }),
        };
        all = all & made & gives(alloc, bytes.as_slice(), want);
    }
    all
}

#[test]
fn sections_are_judged_in_their_order(rt: HostRuntime) {
    let mut bytes = Vec::new(rt.alloc());
    assert!(rt; cases_hold(rt.alloc(), &mut bytes));
}

/// A section that is none of the named kinds.
const OTHER: Header = (0xffff_ffff, 0xffff_ffff, 0xffff_ffff, 0x800);

/// Sections of all kinds.
const HEADERS: [Header; 16] = [
    OTHER,
    (0x1000_0000, 8, 716, 0x40),
    (0x1000_0004, 8, 720, 0x100),
    OTHER,
    (0x0040_0000, 8, 716, 0x20),
    (0x1000_0000, 0x6000_0000, 0xffff_ffff, 0x80),
    OTHER,
    (0x1000_0000, 0, 716, 0x200),
    (0x0040_0000, 8, 0xffff_ffff, 0x400),
    OTHER,
    OTHER,
    OTHER,
    OTHER,
    OTHER,
    OTHER,
    (0x1000_0002, 2, 0, 0x40),
];

/// Kind, address, size and the number of bytes of each part of these.
const PARTS: [(Kind, u32, u32, usize); 6] = [
    (Kind::Data, 0x1000_0000, 8, 8),
    (Kind::Rdata, 0x1000_0004, 8, 8),
    (Kind::Bss, 0x1000_0000, 0x6000_0000, 0),
    (Kind::Sdata, 0x1000_0000, 0, 0),
    (Kind::Sbss, 0x0040_0000, 8, 0),
    (Kind::Data, 0x1000_0002, 2, 2),
];

/// Whether these are the parts.
fn are_parts(parts: &[Part]) -> bool {
    let mut all = parts.len() == PARTS.len();
    for (part, (kind, addr, size, brought)) in parts.iter().zip(PARTS) {
        let place = (part.addr == addr) & (part.size == size);
        all = all & place & (part.kind == kind) & (part.bytes.as_slice().len() == brought);
    }
    match parts.last() {
        Some(part) => all & (part.bytes.as_slice() == [98, 1].as_slice()),
        None => false,
    }
}

/// Whether bytes are an object with these parts and a text of eight bytes.
fn has_parts(alloc: Global, bytes: &[u8]) -> bool {
    match read(alloc, bytes) {
        Ok(image) => {
            are_parts(image.parts.as_slice()) & (image.text.bytes.as_slice().len() == 8)
        }
        Err(_) => false,
    }
}

#[test]
fn parts_keep_their_order_and_other_sections_are_passed_over(rt: HostRuntime) {
    let mut bytes = Vec::new(rt.alloc());
    let made = put_object(&mut bytes, 16, &HEADERS, 12).is_ok();
    assert!(rt; made & has_parts(rt.alloc(), bytes.as_slice()));
}

/// The headers of an object of 16,777,216 bytes: the largest text, and data behind it.
const LARGEST: [Header; 2] = [
    (0x0040_0000, 4_194_304, 156, 0x20),
    (0x1000_0000, 12_582_756, 4_194_460, 0x40),
];

/// Headers whose text is one instruction too long.
const TOO_LARGE: [Header; 2] = [
    (0x0040_0000, 4_194_312, 156, 0x20),
    (0x1000_0000, 12_582_748, 4_194_468, 0x40),
];

/// Whether an image has a text and a part of these lengths.
fn has_lengths(image: &Image, text: usize, part: usize) -> bool {
    match image.parts.as_slice() {
        [one] => (image.text.bytes.as_slice().len() == text) & (one.bytes.as_slice().len() == part),
        _ => false,
    }
}

/// Whether an image is written in so many bytes.
fn has_length(alloc: Global, image: &Image, length: usize) -> bool {
    if !image.fits() || object_length(image) != length as u64 || length > 0x0fff_ffff {
        return false;
    }
    match write(alloc, image) {
        Ok(bytes) => bytes.len() == length,
        Err(_) => false,
    }
}

/// Whether the largest object is read and written, and one with a larger text refused.
fn largest_is_read(alloc: Global, bytes: &mut Vec<u8>) -> bool {
    let made = put_object(bytes, 2, &LARGEST, 16_777_060).is_ok();
    let back = match read(alloc, bytes.as_slice()) {
        Ok(image) => {
            has_lengths(&image, 4_194_304, 12_582_756) & has_length(alloc, &image, 16_777_216)
        }
        Err(_) => false,
    };
    let larger = put_object(bytes, 2, &TOO_LARGE, 16_777_060).is_ok();
    let fault = ObjectFault::Bad {
        at: 92,
        why: ObjectWhy::TextSize,
    };
    made & back & larger & gives(alloc, bytes.as_slice(), Err(fault))
}

#[test]
fn the_largest_object_is_read_and_written(rt: HostRuntime) {
    let mut bytes = Vec::new(rt.alloc());
    assert!(rt; largest_is_read(rt.alloc(), &mut bytes));
}

/// A part of this kind.
fn part(alloc: Global, kind: Kind, addr: u32, size: u32, bytes: &[u8]) -> Result<Part, AllocError> {
    Ok(Part {
        kind,
        addr,
        size,
        bytes: Bytes::from_vec(Vec::from_slice(alloc, bytes)?),
    })
}

/// Adds a part of each kind.
fn push_parts(alloc: Global, parts: &mut Vec<Part>) -> Result<(), AllocError> {
    parts.push(part(alloc, Kind::Sbss, 0x1000_0000, 3, &[])?)?;
    parts.push(part(alloc, Kind::Data, 0x1000_0000, 2, &[1, 2])?)?;
    parts.push(part(alloc, Kind::Sdata, 0x1000_0002, 0, &[])?)?;
    parts.push(part(alloc, Kind::Bss, 0x0040_0000, 64, &[])?)?;
    parts.push(part(alloc, Kind::Rdata, 0x1000_0001, 3, &[3, 4, 5])?)?;
    Ok(())
}

/// An image with a part of each kind.
fn image(alloc: Global) -> Result<Image, AllocError> {
    let mut parts = Vec::new(alloc);
    push_parts(alloc, &mut parts)?;
    let text = Bytes::from_vec(Vec::from_slice(alloc, &[9; 16])?);
    Ok(Image {
        entry: 0x0040_0008,
        text: Text {
            start: 0x0040_0000,
            big: false,
            bytes: text,
        },
        parts: Parts::from_vec(parts),
    })
}

/// Name, address, size, place and flags of each section behind the text's.
const SECTIONS: [(&[u8; 6], u32, u32, u32, u32); 5] = [
    (b".sbss\0", 0x1000_0000, 3, 0, 0x400),
    (b".data\0", 0x1000_0000, 2, 332, 0x40),
    (b".sdata", 0x1000_0002, 0, 334, 0x200),
    (b".bss\0\0", 0x0040_0000, 64, 0, 0x80),
    (b".rdata", 0x1000_0001, 3, 334, 0x100),
];

/// Adds the headers of these sections.
fn push_headers(bytes: &mut Vec<u8>) -> Result<(), AllocError> {
    for (name, addr, size, pointer, flags) in SECTIONS {
        bytes.extend_from_slice(name)?;
        bytes.extend_from_slice(&[0; 2])?;
        for word in [addr, addr, size, pointer, 0, 0, 0, flags] {
            bytes.extend_from_slice(&word.to_le_bytes())?;
        }
    }
    Ok(())
}

/// Whether the image is written in 337 bytes that end with these headers, the text and the contents.
fn is_written_with(alloc: Global, image: &Image, headers: &[u8]) -> bool {
    let contents = [
        9, 9, 9, 9, 9, 9, 9, 9, 9, 9, 9, 9, 9, 9, 9, 9, 1, 2, 3, 4, 5,
    ];
    if !image.fits() || object_length(image) != 337 {
        return false;
    }
    match write(alloc, image) {
        Ok(bytes) => {
            let named = bytes.get(116..316) == Some(headers);
            named & (bytes.get(316..) == Some(contents.as_slice()))
        }
        Err(_) => false,
    }
}

#[test]
fn parts_of_each_kind_are_written(rt: HostRuntime) {
    let mut headers = Vec::new(rt.alloc());
    let made = push_headers(&mut headers).is_ok();
    let written = match image(rt.alloc()) {
        Ok(image) => is_written_with(rt.alloc(), &image, headers.as_slice()),
        Err(_) => false,
    };
    assert!(rt; made & written);
}
