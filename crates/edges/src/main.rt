//! Document 01's cases 10, 11 and 12: each run's line has the case's number and what the document says of it, tab-parted.
//! A write that fails is dropped.
#![tactic(auto)]

use blockcheck::CODE;
use machine::memory::load;
use machine::registers::{EAX, ECX, EDI, ESI};
use run::{Lent, Ran, run};
use scalar::Xmm;
use std::array;
use width::Size;

/// A machine at the code's start, by ECX, ESI and EDI; the other registers and the singles are 0, and the flags 0002h.
fn lent(ecx: u32, esi: u32, edi: u32) -> Lent {
    Lent {
        regs: [0, ecx, 0, 0, 0, 0, esi, edi],
        xmm: [Xmm { bits: 0 }; 8],
        eip: CODE,
        word: 0x0002,
    }
}

/// The data's byte at a place: 1 to 100 make up the 25 doublewords to move, and EEh stands behind them.
fn byte_at(at: usize) -> u8 {
    if at < 100 { at as u8 + 1 } else { 0xEE }
}

/// The doubleword at an address of the data, 0 outside.
fn word_at(area: &[u8], a: u32) -> u32 {
    load(b"", area, Size::Dword, a).unwrap_or(0)
}

/// Writes a decimal field and what parts it from what follows.
// Piece by piece, here and in `hex_field`: one that can't be written is dropped by itself.
fn decimal_field(to: &impl Print, n: u64, parted: &str) {
    print!(to; "{n}").ok();
    print!(to; "{parted}").ok();
}

/// Writes a field of eight hex digits and what parts it from what follows.
fn hex_field(to: &impl Print, n: u32, parted: &str) {
    print!(to; "{n:08X}").ok();
    print!(to; "{parted}").ok();
}

/// The line of a half of case 10: number, EIP, ECX, ESI and EDI, the last word that was moved and the one behind it.
fn say_half(to: &impl Print, r: &Ran, last: u32, behind: u32) {
    let m = &r.machine;
    decimal_field(to, 10, "\t");
    decimal_field(to, u64::from(r.number()), "\t");
    hex_field(to, m.eip, "\t");
    decimal_field(to, u64::from(m.regs[ECX as usize]), "\t");
    hex_field(to, m.regs[ESI as usize], "\t");
    hex_field(to, m.regs[EDI as usize], "\t");
    hex_field(to, last, "\t");
    hex_field(to, behind, "\n");
}

/// F3 A5, 25 doublewords from 00100000h to 00100100h, with 512 data bytes: budget 10, and then 15.
fn halves(to: &impl Print, code: &[u8]) {
    let mut area: [u8; 512] = array::from_fn(byte_at);
    let first = run(lent(25, 0x0010_0000, 0x0010_0100), code, b"", &mut area, 10);
    let last = word_at(&area, 0x0010_0124);
    let behind = word_at(&area, 0x0010_0128);
    say_half(to, &first, last, behind);
    let second = run(first.machine, code, b"", &mut area, 15);
    let last = word_at(&area, 0x0010_0160);
    let behind = word_at(&area, 0x0010_0164);
    say_half(to, &second, last, behind);
}

/// The same with 352 data bytes and budget 100: steps, number, address and ECX, and the last word that was moved.
fn stopped(to: &impl Print, code: &[u8]) {
    let mut area: [u8; 352] = array::from_fn(byte_at);
    let r = run(
        lent(25, 0x0010_0000, 0x0010_0100),
        code,
        b"",
        &mut area,
        100,
    );
    let last = word_at(&area, 0x0010_015C);
    decimal_field(to, 11, "\t");
    decimal_field(to, r.steps, "\t");
    decimal_field(to, u64::from(r.number()), "\t");
    hex_field(to, r.address(), "\t");
    decimal_field(to, u64::from(r.machine.regs[ECX as usize]), "\t");
    hex_field(to, last, "\n");
}

/// 8B 06 with the 8 data bytes 11h to 88h, at one ESI: number, address and EAX.
fn reads(to: &impl Print, code: &[u8], esi: u32) {
    let mut area = [0x11u8, 0x22, 0x33, 0x44, 0x55, 0x66, 0x77, 0x88];
    let r = run(lent(0, esi, 0), code, b"", &mut area, 1);
    decimal_field(to, 12, "\t");
    decimal_field(to, u64::from(r.number()), "\t");
    hex_field(to, r.address(), "\t");
    hex_field(to, r.machine.regs[EAX as usize], "\n");
}

fn main(rt: HostRuntime) {
    let moves = [0xF3u8, 0xA5];
    halves(&rt, &moves);
    stopped(&rt, &moves);
    let loads = [0x8Bu8, 0x06];
    reads(&rt, &loads, 0x0010_0004);
    reads(&rt, &loads, 0x0010_0005);
}
