//! Typical coordinates, read many times.
use micron_decimals::read_micron;

/// What CAD systems write.
const TEXTS: [&str; 8] = [
    "123.456000",
    "-17.250000",
    "0.000000",
    "99999.999000",
    "1.5E+1",
    "-4096.031250",
    "250.0",
    "12.345678",
];

/// The sum of what so many readings give, in micrometres, in turn over the texts.
pub fn sum_of(count: u32) -> i64 {
    let mut sum = 0i64;
    for k in 0..count {
        let text = TEXTS[(k % 8) as usize];
        if let Ok(n) = read_micron(text.as_bytes(), 100_000_000) {
            sum = sum.wrapping_add(n);
        }
    }
    sum
}
