// Guarded memory, so that the trials need no facts of their own: outside a slice a read gives 0 and a write does nothing.

fn byte(b: &[u8], i: usize) -> u8 {
    match b.get(i) {
        Some(x) => *x,
        None => 0,
    }
}

pub fn read16(b: &[u8], i: usize) -> u16 {
    u16::from_le_bytes([byte(b, i), byte(b, i.wrapping_add(1))])
}

fn write(b: &mut [u8], at: usize, bytes: &[u8]) {
    for (k, x) in bytes.iter().enumerate() {
        if let Some(place) = b.get_mut(at.wrapping_add(k)) {
            *place = *x;
        }
    }
}

// The low 16 bits of x.
pub fn write16(b: &mut [u8], i: usize, x: u32) {
    write(b, i, &((x % 65536) as u16).to_le_bytes());
}

pub fn write32(b: &mut [u8], i: usize, x: u32) {
    write(b, i, &x.to_le_bytes());
}
