// Sessions and scripts in rows, whose replies are known.
use std::alloc::{AllocError, Global};

// Lines of an input, and the reply to the last of them.
pub type Row = (&'static [u8], &'static [u8]);

// A whole input, and all replies to it.
#[derive(Drop)]
pub struct Texts {
    pub input: Vec<u8>,
    pub replies: Vec<u8>,
}

impl Texts {
    pub fn new(alloc: Global, rows: &[Row]) -> Result<Self, AllocError> {
        let mut texts = Texts {
            input: Vec::new(alloc),
            replies: Vec::new(alloc),
        };
        match texts.push_each(rows) {
            Ok(()) => Ok(texts),
            Err(fault) => {
                drop(texts);
                Err(fault)
            }
        }
    }

    fn push_each(&mut self, rows: &[Row]) -> Result<(), AllocError> {
        for (lines, reply) in rows {
            self.input.extend_from_slice(lines)?;
            self.replies.extend_from_slice(reply)?;
        }
        Ok(())
    }

    // The replies to the rows whose lines end within so many octets of the input.
    pub fn replies_within(&self, rows: &[Row], octets: u64) -> &[u8] {
        let count = rows_within(rows, octets).min(rows.len());
        &self.replies[..replies_len(&rows[..count]).min(self.replies.len())]
    }
}

// How many of the rows have lines that end within so many octets of the input.
pub fn rows_within(rows: &[Row], octets: u64) -> usize {
    let mut left = octets;
    for place in 0..rows.len() {
        let length = rows[place].0.len() as u64;
        if length > left {
            return place;
        }
        left -= length;
    }
    rows.len()
}

// How many of the rows have replies that begin before so many octets of all replies.
pub fn rows_before(rows: &[Row], octets: u64) -> usize {
    let mut left = octets;
    for place in 0..rows.len() {
        if left == 0 {
            return place;
        }
        left = left.saturating_sub(rows[place].1.len() as u64);
    }
    rows.len()
}

fn replies_len(rows: &[Row]) -> usize {
    let mut length = 0_usize;
    for row in rows {
        length = length.saturating_add(row.1.len());
    }
    length
}
