// What the tests share: words, texts, and what a call leaves.
use revc_base::Memory;
use std::alloc::Global;

// A program of `examples/` without its comment, and its file.
pub const PRODUCT: &[u8] = b"main (a : bool) (b : bool) = a && b";

pub const PRODUCT_FILE: &[u8] =
    b".version 2.0\n.numvars 4\n.variables x0 x1 y0 w0\n.inputs x0 x1 y0 w0
.outputs x0 x1 y0 w0\n.constants --00\n.garbage ----\n.begin\nt3 x0 x1 w0\nt2 w0 y0\nt3 x0 x1 w0
.end\n";

// What a call leaves.
#[derive(Drop)]
pub struct Left {
    pub status: u8,
    pub out: Vec<u8>,
    pub err: Vec<u8>,
}

impl Left {
    // Whether the call ended with this status and wrote this.
    pub fn is(&self, status: u8, written: &[u8]) -> bool {
        let (full, empty) = if status == 0 {
            (&self.out, &self.err)
        } else {
            (&self.err, &self.out)
        };
        self.status == status && full.as_slice() == written && empty.is_empty()
    }
}

// The words of a call, parted by blanks.
pub fn words_of(alloc: Global, words: &str) -> Result<Vec<String>, Memory> {
    let mut all = Vec::new(alloc);
    if words.is_empty() {
        return Ok(all);
    }
    for word in words.split(' ') {
        all.push(String::from_str(alloc, word)?)?;
    }
    Ok(all)
}

pub fn left_by(alloc: Global, status: u8, out: &[u8], err: &[u8]) -> Result<Left, Memory> {
    let out = out.to_vec(alloc)?;
    let err = err.to_vec(alloc)?;
    Ok(Left { status, out, err })
}
