// The answer lists at the sizes of 01.
#[derive(Clone, Copy, PartialEq)]
pub struct Lists {
    pub path_node: [usize; 255],
    pub path_len: [usize; 255],
    pub out_node: [usize; 128],
    pub out_start: [usize; 128],
    pub out_end: [usize; 128],
    pub out_write: [u32; 128],
    pub out_bytes: [u64; 128],
    pub out_dead: [u64; 128],
    pub writes: [u32; 128],
    pub span_tier: [usize; 1024],
    pub span_node: [usize; 1024],
    pub span_start: [usize; 1024],
    pub span_end: [usize; 1024],
}

impl Lists {
    // They hold what no call answers, so that a place written is seen.
    pub fn blank() -> Lists {
        Lists {
            path_node: [9999; 255],
            path_len: [9999; 255],
            out_node: [9999; 128],
            out_start: [9999; 128],
            out_end: [9999; 128],
            out_write: [9999; 128],
            out_bytes: [9999; 128],
            out_dead: [9999; 128],
            writes: [9999; 128],
            span_tier: [9999; 1024],
            span_node: [9999; 1024],
            span_start: [9999; 1024],
            span_end: [9999; 1024],
        }
    }
}
