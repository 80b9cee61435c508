// Spec tables made here, at the edges of document 01: 64 and 65 rows, 16 and 17 children, 100,000 rows, and every beginning of a good table.
// Each line of the output is a case and the number of its answer, 0 where it is accepted.
#![tactic(auto)]

ghost use Rattle.std.specs.Prelude.{◌≤◌};

use std::io;
use std::io::Print;

// Bytes written so far.
// Kept: places with a length beside them, and no Vec: what the tables are made of is fixed, and nothing can fail.
#[derive(Drop)]
struct Written {
    at: [u8; 2048],
    len: usize,
}

impl Written {
    fn new() -> Written {
        Written {
            at: [0u8; 2048],
            len: 0,
        }
    }

    // One byte more; none past the end.
    fn put(&mut self, x: u8) {
        if self.len < 2048 {
            self.at[self.len] = x;
            self.len += 1;
        }
    }

    // Numbers of 16, 32 and 64 bits, the low byte first.
    fn two(&mut self, n: u64) {
        self.put((n % 256) as u8);
        self.put((n / 256 % 256) as u8);
    }

    fn four(&mut self, n: u64) {
        self.two(n % 65536);
        self.two(n / 65536);
    }

    fn eight(&mut self, n: u64) {
        self.four(n % 4294967296);
        self.four(n / 4294967296);
    }

    // A row: kind, mode, count, extra, minima.
    fn row(&mut self, kind: u8, mode: u8, count: u64, extra: u64, minima: u64) {
        self.put(kind);
        self.put(mode);
        self.two(count);
        self.two(extra);
        self.two(minima);
    }

    // n rows of panes.
    fn panes(&mut self, n: u64) {
        for _ in 0..n {
            self.row(0, 0, 1, 0, 0);
        }
    }

    // n vertical splits of m panes each.
    fn splits(&mut self, n: u64, m: u64) {
        for _ in 0..n {
            self.row(2, 1, m, m, 0);
            self.panes(m);
        }
    }

    // How many panes there are, and their numbers, the last first.
    fn numbers(&mut self, n: u64) {
        self.four(n);
        for k in 0..n {
            self.eight(n - k);
        }
    }

    // How many shares there are, each of them 1.0.
    fn shares(&mut self, n: u64) {
        self.four(n);
        for _ in 0..n {
            self.eight(0x3ff0_0000_0000_0000);
        }
    }

    // The number of the answer to the bytes so far.
    fn answer(&self) -> u64 {
        answer_of(&self.at, self.len)
    }
}

// A horizontal split of some panes and then n vertical splits of m panes each, all of them; the first child has a minimum, 5.0.
fn grid(panes: u64, n: u64, m: u64, all: u64) -> Written
    requires { (panes ≤ 20) × (n ≤ 20) × (all ≤ 400) }
{
    let kids = panes + n;
    let mut w = Written::new();
    w.four(1 + kids + all);
    w.row(2, 0, kids, kids, 1);
    w.panes(panes);
    w.splits(n, m);
    w.numbers(panes + all);
    w.shares(kids + all);
    w.four(1);
    w.eight(0x4014_0000_0000_0000);
    w
}

// The number of the answer to the first n bytes; 99 where there are fewer.
fn answer_of(buf: &[u8], n: usize) -> u64 {
    match buf.get(..n) {
        Some(b) => answers::Told::from(spec::whole::from_spec(b).answer).number,
        None => 99,
    }
}

// How many of the first n beginnings of the bytes, each shorter than n, are refused with 1.
fn beginnings(buf: &[u8], n: usize) -> usize {
    (0..n).filter(|k| answer_of(buf, *k) == 1).count()
}

// 100,000 rows that are good by the row rules: splits of one child each, one under the other, and at last an empty group.
fn chain(b: &mut [u8; 800016]) {
    b[0] = 160;
    b[1] = 134;
    b[2] = 1;
    for i in 0..99999 {
        b[4 + 8 * i] = 2;
        b[6 + 8 * i] = 1;
    }
    b[799996] = 1;
}

fn line(rt: &impl Print, label: &[u8], n: u64) -> io::Result<()> {
    rt.write_all(label)?;
    println!(rt; "{n}")
}

// The beginnings of a grid of 64 rows.
fn show_beginnings(rt: &impl Print, w: &Written) -> io::Result<()> {
    line(rt, b"bytes of a good table: ", w.len as u64)?;
    line(
        rt,
        b"its proper beginnings refused with 1: ",
        beginnings(&w.at, w.len) as u64,
    )
}

fn show_chain(rt: &impl Print) -> io::Result<()> {
    let mut b = [0u8; 800016];
    chain(&mut b);
    line(rt, b"100000 rows: ", answer_of(&b, 800016))?;
    b[799996] = 3;
    line(
        rt,
        b"100000 rows, the last of no kind: ",
        answer_of(&b, 800016),
    )
}

fn main(rt: HostRuntime) -> io::Result<()> {
    line(&rt, b"64 rows: ", grid(0, 7, 8, 56).answer())?;
    line(&rt, b"65 rows: ", grid(1, 7, 8, 56).answer())?;
    line(&rt, b"16 children: ", grid(16, 0, 0, 0).answer())?;
    line(&rt, b"17 children: ", grid(17, 0, 0, 0).answer())?;
    show_chain(&rt)?;
    show_beginnings(&rt, &grid(0, 7, 8, 56))
}
