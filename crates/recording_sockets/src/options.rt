//! Options of sockets.

/// A number as the system reads the value of an option: its octets, in the order of the machine, come first.
pub fn option_value(number: i32) -> [u8; 16] {
    let mut value = [0; 16];
    value[..4].copy_from_slice(&number.to_ne_bytes());
    value
}
