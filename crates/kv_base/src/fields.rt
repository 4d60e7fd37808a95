//! Numbers and texts as files have them: numbers are unsigned, high byte first.

ghost use Rattle.std.specs.Prelude.{◌≡◌, option_map};
ghost use Rattle.kv_base.specs.Fields.{read_u32, read_u64, read_text};

/// The number of the first four bytes, and what is behind them; `None` where there are fewer.
pub fn take_u32(bytes: &[u8]) -> Option<(u32, &[u8])>
    ensures { option_map (λ front. (front.0, front.1.now)) result ≡ read_u32 bytes.now }
{
    let (front, behind) = bytes.split_first_chunk::<4>()?;
    Some((u32::from_be_bytes(*front), behind))
}

/// The number of the first eight bytes, and what is behind them; `None` where there are fewer.
pub fn take_u64(bytes: &[u8]) -> Option<(u64, &[u8])>
    ensures { option_map (λ front. (front.0, front.1.now)) result ≡ read_u64 bytes.now }
{
    let (front, behind) = bytes.split_first_chunk::<8>()?;
    Some((u64::from_be_bytes(*front), behind))
}

/// The text in front, which has its length in four bytes before it, and what is behind it; `None` where bytes are missing.
pub fn take_text(bytes: &[u8]) -> Option<(&[u8], &[u8])>
    ensures { option_map (λ front. (front.0.now, front.1.now)) result ≡ read_text bytes.now }
{
    let (length, behind) = take_u32(bytes)?;
    behind.split_at_checked(length as usize)
}
