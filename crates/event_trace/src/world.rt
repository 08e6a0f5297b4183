//! The closed world that answers the system calls of a run that is recorded.
ghost use Rattle.std.specs.Prelude.{◌≡◌, ℕ, ◌+◌, ◌-◌, ◌^◌, bytes_eq, string_bytes, ◌<◌, ◌≤◌, Some, None, drop, take, length, nat_eq, position, slice_get, slice_index, option_copied, vec_len, IfSome, OnOk, IfOk, OnErr};
ghost use Rattle.paged_mem.specs.Memory.{byte_of};
ghost use Rattle.event_trace.specs.Grammar.{IsRecord};
ghost use Rattle.event_trace.specs.World.{files_of, start_world, open_at, left_at, position_at, advanced, read_call, file_named, bytes_of, open_answer, with_opens, open_bytes, open_call, close_call, break_call, served, progress_of, set_to};

use crate::answers::{
    MEMORY_END, MOST_BYTES, answer, answer_path, copy_path, exit, read_bytes, read_one, read_three,
    read_two, refuse, unknown, write_out,
};
use crate::trace::Record;
use paged_mem::PagedMem;
use ss_base::OutOfMemory;
use std::alloc::Global;
use std::marker::Model;

/// Descriptors below this are no files: the input and the two outputs.
const FIRST_FILE: u32 = 3;

/// How many opens are answered with a descriptor.
const MOST_OPENS: usize = 16;

/// The greatest break.
const LAST_BREAK: u32 = 0x7f00_0000;

/// An open that was answered with a descriptor.
#[derive(Clone, Copy, Debug)]
struct Open {
    file: usize,
    position: usize,
    is_open: bool,
}

impl Model for Open {
    ghost use Rattle.event_trace.specs.World.{Opened};

    ghost Value = { Opened };

    ghost view = { λ o. record { file = o.file; position = o.position; is_open = o.is_open } };

    ghost inverse = { λ v. record { file = v.file; position = v.position; is_open = v.is_open } };
}

/// What calls change of a world.
#[derive(Drop)]
pub struct Progress {
    position: usize,
    opens: Vec<Open>,
    program_break: u32,
}

impl Model for Progress {
    ghost use Rattle.event_trace.specs.World.{ProgressState};

    ghost Value = { ProgressState };

    ghost view = { λ p. record { position = p.position; opens = p.opens.items; program_break = p.program_break } };
}

/// What answers the system calls of a run that is recorded: an input, files that may be opened, and
/// the break of the program. Nothing outside of it is read or changed. Contracts see it as the
/// definition's state.
#[derive(Drop)]
pub struct World {
    input: Vec<u8>,
    position: usize,
    files: Vec<(String, Vec<u8>)>,
    opens: Vec<Open>,
    start_break: u32,
    program_break: u32,
}

impl Model for World {
    ghost use Rattle.event_trace.specs.World.{WorldState, files_of};

    ghost Value = { WorldState };

    ghost view = { λ w. record { input = w.input.items; position = w.position; files = files_of w.files.items; opens = w.opens.items; start_break = w.start_break; program_break = w.program_break } };
}

/// What stands behind a position.
fn rest(bytes: &[u8], position: usize) -> &[u8]
    ensures { result.now ≡ drop position bytes.now }
{
    if position < bytes.len() {
        &bytes[position..]
    } else {
        &[]
    }
}

/// The place of the first of these files that has this name.
fn find_name(files: &[(String, Vec<u8>)], name: &[u8]) -> Option<usize>
    ensures { result ≡ position (λ f. bytes_eq (string_bytes f.0) name.now) files.now }
{
    files.iter().position(|file| file.0.as_bytes() == name)
}

/// The place of the first zero.
fn zero_place(bytes: &[u8]) -> Option<usize>
    ensures place { result ≡ position (λ b. nat_eq b 0) bytes.now }
    ensures inside { IfSome result (λ n. n < length bytes.now) }
{
    bytes.iter().position(|byte| *byte == 0)
}

impl World {
    /// The world before a run: nothing of the input was read, and no file is open. A file is a name
    /// and its bytes; of files with one name the first is meant. `start_break` is the least break
    /// that a program may ask for.
    pub fn new(
        alloc: Global,
        input: Vec<u8>,
        files: Vec<(String, Vec<u8>)>,
        start_break: u32,
    ) -> World
        ensures { result ≡ start_world input.items (files_of files.items) start_break }
    {
        World {
            input,
            position: 0,
            files,
            opens: Vec::new(alloc),
            start_break,
            program_break: start_break,
        }
    }

    /// Where the calls so far have brought this world.
    pub(crate) fn progress(&self, alloc: Global) -> Result<Progress, OutOfMemory>
        ensures { IfOk result (λ at. at ≡ progress_of self.now) }
    {
        Ok(Progress {
            position: self.position,
            opens: Vec::from_slice(alloc, self.opens.as_slice())?,
            program_break: self.program_break,
        })
    }

    /// Sets the world to where it was.
    pub(crate) fn set_back(&mut self, at: Progress)
        ensures { self.new ≡ set_to self.old at }
    {
        self.position = at.position;
        self.opens = at.opens;
        self.program_break = at.program_break;
    }

    /// The record of a call: `icnt` instructions were done before it, it stands at `pc`, and finds
    /// these registers and this memory. Where memory runs out the world is as before.
    pub fn serve(
        &mut self,
        alloc: Global,
        icnt: u64,
        pc: u32,
        regs: &[u32; 32],
        mem: &PagedMem,
    ) -> Result<Record, OutOfMemory>
        // The record and the next world are the definition's.
        ensures ok { IfOk result (λ r. served self.old icnt pc (slice_index regs.now) (byte_of mem.now) ≡ (r, self.new)) }
        ensures err { OnErr result (self.new ≡ self.old) }
        // A trace may hold the record, behind records of fewer instructions.
        ensures held { IfOk result (λ r. (least : ℕ) → least ≤ icnt → icnt ≤ 10 ^ 15 → IsRecord least r) }
    {
        self.answer(alloc, icnt, pc, regs, mem)
    }

    /// Answers a call by its number.
    #[tactic(auto, unfolding(crate::specs::World::served))]
    fn answer(
        &mut self,
        alloc: Global,
        icnt: u64,
        pc: u32,
        regs: &[u32; 32],
        mem: &PagedMem,
    ) -> Result<Record, OutOfMemory>
        ensures ok { IfOk result (λ r. served self.old icnt pc (slice_index regs.now) (byte_of mem.now) ≡ (r, self.new)) }
        ensures err { OnErr result (self.new ≡ self.old) }
    {
        match regs[2] {
            1 => exit(alloc, icnt, pc, regs),
            3 => self.read(alloc, icnt, pc, regs),
            4 => write_out(alloc, icnt, pc, regs, mem),
            5 => self.open(alloc, icnt, pc, regs, mem),
            6 => self.close(alloc, icnt, pc, regs),
            17 => self.set_break(alloc, icnt, pc, regs),
            _ => unknown(alloc, icnt, pc, regs),
        }
    }

    /// The open of a descriptor whose file is still open.
    #[tactic(auto, unfolding(crate::specs::World::open_at))]
    fn find_open(&self, descriptor: u32) -> Option<Open>
        ensures open { result ≡ open_at self.now.opens descriptor }
        ensures file { IfSome result (λ _. 3 ≤ descriptor) }
        ensures inside { IfSome result (λ _. descriptor - 3 < length self.now.opens) }
    {
        if descriptor < FIRST_FILE {
            return None;
        }
        match self.opens.get((descriptor - FIRST_FILE) as usize) {
            Some(open) => if open.is_open { Some(*open) } else { None },
            None => None,
        }
    }

    /// The bytes of a file.
    #[tactic(auto, using(crate::proofs::Files::bytes_held))]
    fn file(&self, place: usize) -> &[u8]
        ensures { result.now ≡ bytes_of (slice_get self.now.files place) }
    {
        match self.files.get(place) {
            Some(file) => file.1.as_slice(),
            None => &[],
        }
    }

    /// What is left to be read at a descriptor, `None` where it can't be read.
    #[tactic(auto, unfolding(crate::specs::World::left_at, crate::specs::World::position_at))]
    fn left(&self, descriptor: u32) -> Option<&[u8]>
        ensures bytes { option_copied result ≡ left_at self.now descriptor }
        ensures bound { IfSome result (λ left. position_at self.now descriptor + length left.now < 2 ^ 64) }
    {
        if descriptor == 0 {
            return Some(rest(self.input.as_slice(), self.position));
        }
        match self.find_open(descriptor) {
            Some(open) => Some(rest(self.file(open.file), open.position)),
            None => None,
        }
    }

    /// Moves the position of a descriptor behind `count` bytes that were read.
    #[tactic(auto, unfolding(crate::specs::World::advanced, crate::specs::World::position_at))]
    fn advance(&mut self, descriptor: u32, count: usize)
        requires { position_at self.old descriptor + count < 2 ^ 64 }
        ensures { self.new ≡ advanced self.old descriptor count }
    {
        if descriptor == 0 {
            self.position += count;
            return;
        }
        match self.find_open(descriptor) {
            Some(open) => {
                self.opens[(descriptor - FIRST_FILE) as usize] = Open {
                    file: open.file,
                    position: open.position + count,
                    is_open: open.is_open,
                };
            }
            None => (),
        }
    }

    /// Reads bytes of the input or of an open file.
    #[tactic(auto, unfolding(crate::specs::World::read_call))]
    fn read(
        &mut self,
        alloc: Global,
        icnt: u64,
        pc: u32,
        regs: &[u32; 32],
    ) -> Result<Record, OutOfMemory>
        ensures ok { IfOk result (λ r. read_call self.old icnt pc (slice_index regs.now) ≡ (r, self.new)) }
        ensures err { OnErr result (self.new ≡ self.old) }
    {
        let ins = read_three(alloc, regs)?;
        let left = match self.left(regs[4]) {
            Some(left) => left,
            None => return refuse(alloc, icnt, pc, ins, 9),
        };
        let count = (regs[6] as usize).min(left.len()).min(MOST_BYTES as usize);
        if u64::from(regs[5]) + count as u64 > MEMORY_END {
            return refuse(alloc, icnt, pc, ins, 14);
        }
        let call = read_bytes(alloc, icnt, pc, ins, regs[5], &left[..count])?;
        self.advance(regs[4], count);
        Ok(call)
    }

    /// The place of the first file with this name.
    #[tactic(auto, using(crate::proofs::Files::place_found), unfolding(crate::specs::World::file_named))]
    fn find_file(&self, name: &[u8]) -> Option<usize>
        ensures { result ≡ file_named self.now.files name.now }
    {
        find_name(self.files.as_slice(), name)
    }

    /// The values of registers 2 and 7 after an open of a file.
    fn open_values(&self, file: Option<usize>) -> (u32, u32)
        ensures value { result.0 ≡ (open_answer self.now.opens file).0 }
        ensures flag { result.1 ≡ (open_answer self.now.opens file).1 }
    {
        match file {
            None => (2, 1),
            Some(_) => {
                let count = self.opens.len();
                if count < MOST_OPENS {
                    (FIRST_FILE + count as u32, 0)
                } else {
                    (24, 1)
                }
            }
        }
    }

    /// Gives a file the next descriptor, where there is one.
    fn add_open(&mut self, file: Option<usize>) -> Result<(), OutOfMemory>
        ensures ok { OnOk result (self.new ≡ with_opens self.old (open_answer self.old.opens file).2) }
        ensures err { OnErr result (self.new ≡ self.old) }
    {
        match file {
            None => Ok(()),
            Some(file) => {
                if self.opens.len() < MOST_OPENS {
                    self.opens.push(Open {
                        file,
                        position: 0,
                        is_open: true,
                    })?;
                }
                Ok(())
            }
        }
    }

    /// Opens the file whose path is the first `length` of these bytes.
    fn open_path(
        &mut self,
        alloc: Global,
        icnt: u64,
        pc: u32,
        regs: &[u32; 32],
        mut path: Vec<u8>,
        length: usize,
    ) -> Result<Record, OutOfMemory>
        requires { length < vec_len path }
        ensures ok { IfOk result (λ r. open_bytes self.old icnt pc (slice_index regs.now) path.items (Some length) ≡ (r, self.new)) }
        ensures err { OnErr result (self.new ≡ self.old) }
    {
        let file = self.find_file(&path[..length]);
        let (value, flag) = self.open_values(file);
        path.truncate(length + 1);
        let call = answer_path(alloc, icnt, pc, regs, path, value, flag)?;
        self.add_open(file)?;
        Ok(call)
    }

    /// Opens the file whose path ends before the first zero of these bytes.
    fn open_bytes(
        &mut self,
        alloc: Global,
        icnt: u64,
        pc: u32,
        regs: &[u32; 32],
        bytes: Vec<u8>,
    ) -> Result<Record, OutOfMemory>
        ensures ok { IfOk result (λ r. open_bytes self.old icnt pc (slice_index regs.now) bytes.items (position (λ b. nat_eq b 0) bytes.items) ≡ (r, self.new)) }
        ensures err { OnErr result (self.new ≡ self.old) }
    {
        match zero_place(bytes.as_slice()) {
            Some(length) => self.open_path(alloc, icnt, pc, regs, bytes, length),
            None => refuse(alloc, icnt, pc, read_two(alloc, regs)?, 14),
        }
    }

    /// Opens a file by its path.
    #[tactic(auto, unfolding(crate::specs::World::open_call))]
    fn open(
        &mut self,
        alloc: Global,
        icnt: u64,
        pc: u32,
        regs: &[u32; 32],
        mem: &PagedMem,
    ) -> Result<Record, OutOfMemory>
        ensures ok { IfOk result (λ r. open_call self.old icnt pc (slice_index regs.now) (byte_of mem.now) ≡ (r, self.new)) }
        ensures err { OnErr result (self.new ≡ self.old) }
    {
        if regs[5] % 4 > 0 {
            return refuse(alloc, icnt, pc, read_two(alloc, regs)?, 13);
        }
        let bytes = copy_path(alloc, mem, regs[4])?;
        self.open_bytes(alloc, icnt, pc, regs, bytes)
    }

    /// Closes an open file.
    #[tactic(auto, unfolding(crate::specs::World::close_call))]
    fn close(
        &mut self,
        alloc: Global,
        icnt: u64,
        pc: u32,
        regs: &[u32; 32],
    ) -> Result<Record, OutOfMemory>
        ensures ok { IfOk result (λ r. close_call self.old icnt pc (slice_index regs.now) ≡ (r, self.new)) }
        ensures err { OnErr result (self.new ≡ self.old) }
    {
        let ins = read_one(alloc, regs)?;
        match self.find_open(regs[4]) {
            None => refuse(alloc, icnt, pc, ins, 9),
            Some(open) => {
                let call = answer(alloc, icnt, pc, ins, 0, 0)?;
                self.opens[(regs[4] - FIRST_FILE) as usize] = Open {
                    file: open.file,
                    position: open.position,
                    is_open: false,
                };
                Ok(call)
            }
        }
    }

    /// Sets the break of the program.
    #[tactic(auto, unfolding(crate::specs::World::break_call))]
    fn set_break(
        &mut self,
        alloc: Global,
        icnt: u64,
        pc: u32,
        regs: &[u32; 32],
    ) -> Result<Record, OutOfMemory>
        ensures ok { IfOk result (λ r. break_call self.old icnt pc (slice_index regs.now) ≡ (r, self.new)) }
        ensures err { OnErr result (self.new ≡ self.old) }
    {
        let ins = read_one(alloc, regs)?;
        if regs[4] < self.start_break || regs[4] > LAST_BREAK {
            return refuse(alloc, icnt, pc, ins, 12);
        }
        let call = answer(alloc, icnt, pc, ins, regs[4], 0)?;
        self.program_break = regs[4];
        Ok(call)
    }
}
