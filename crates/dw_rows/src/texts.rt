ghost use Rattle.std.specs.Prelude.{◌≡◌, Some, option_map};
ghost use Rattle.std.specs.Str.{is_utf8};
ghost use Rattle.dw_event.specs.Names.{lacks_zero};
ghost use Rattle.dw_rows.specs.Values.{guarded};

/// The text that bytes are, where they are UTF-8.
pub fn text_in(bytes: &[u8]) -> Option<&str>
    ensures { option_map (λ s. s.now) result ≡ guarded (is_utf8 bytes.now) (Some bytes.now) }
{
    match std::str::from_utf8(bytes) {
        Ok(text) => Some(text),
        Err(_) => None,
    }
}

/// Whether no byte is 0.
pub fn has_no_zero(bytes: &[u8]) -> bool
    ensures { result ≡ lacks_zero bytes.now }
{
    bytes.iter().all(|b| *b != 0)
}
