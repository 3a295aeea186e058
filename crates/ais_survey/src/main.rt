// The survey program: reads the names of images on standard input, one to a line, and writes a line for each and the totals.
#![tactic(auto)]

ghost use Rattle.std.specs.Prelude.{◌≤◌, IfSome, length};

use std::fs::Files;
use std::io::Read;
use std::{fs, io, str};
use survey::{Image, Survey};

// The list of names, read a room at a time: which byte of the room is next, and where those end that were read.
#[derive(Drop)]
struct List<R: Drop> {
    input: R,
    room: [u8; 4096],
    next: usize,
    end: usize,
}

impl<R: Read + Drop> List<R> {
    fn of(input: R) -> List<R> {
        List {
            input,
            room: [0; 4096],
            next: 0,
            end: 0,
        }
    }

    // The next byte of the list, out of the room or by reading on. A read that fails ends the list.
    fn next_byte(&mut self) -> Option<u8> {
        if self.end <= self.next {
            self.end = self.input.read(&mut self.room).unwrap_or(0);
            self.next = 0;
        }
        if self.end <= self.next {
            return None;
        }
        let byte = self.room.get(self.next).copied()?;
        self.next += 1;
        Some(byte)
    }
}

// Reads a line of the list: up to its line feed, or to the end of the list where something stands before it. What finds no room is dropped, since a name that
// fills the room is too long for the system. No list has as many bytes as there are turns.
fn read_name<'a>(list: &mut List<impl Read + Drop>, room: &'a mut [u8]) -> Option<&'a [u8]>
    ensures { IfSome result (λ bytes. length bytes.now ≤ length room.old) }
{
    let mut kept: usize = 0;
    for _ in 0..u64::MAX {
        match list.next_byte() {
            None if kept == 0 => return None,
            None | Some(b'\n') => return Some(&room[..kept]),
            Some(byte) => {
                if kept < room.len() {
                    room[kept] = byte;
                    kept += 1;
                }
            }
        }
    }
    None
}

// The bytes of a named file, as far as the room goes. A name that is no text names no file, and a folder is opened and can't be read.
fn read_file<'a>(rt: &impl Files, name: &[u8], room: &'a mut [u8]) -> Option<&'a [u8]>
    ensures { IfSome result (λ bytes. length bytes.now ≤ length room.old) }
{
    let path = str::from_utf8(name).ok()?;
    let mut file = fs::open(rt, path).ok()?;
    let have = ais_reading::read_full(&mut file, room).ok()?;
    Some(&room[..have])
}

// The room for a name is that of a path; the room for an image has one byte more than the longest, as what is longer is refused however long.
fn main(rt: HostRuntime) -> io::Result<()> {
    let mut list = List::of(rt.reader());
    let mut name_room = [0u8; 4096];
    let mut room = [0u8; 65537];
    let mut survey = Survey::begin();
    while !survey.is_full() {
        let Some(name) = read_name(&mut list, &mut name_room) else {
            break;
        };
        let image = read_file(&rt, name, &mut room).map_or(Image::absent(), Image::of);
        let line = survey.line(image);
        println!(rt;
            "image={} outcome={} set={} differ={}",
            line.image, line.outcome, line.set, line.differ
        )?;
        survey = survey.including(image);
    }
    let totals = survey.totals();
    println!(rt;
        "images={} entered={} differ={}",
        totals.images, totals.entered, totals.differ
    )
}
