//! The limits of a catalogue, as numbers. Each is a clause of a function with an empty body.

ghost use Rattle.std.specs.Prelude.{◌≡◌};
ghost use Rattle.fx_base.specs.declared.catalogue.TheConstants.{MOST_ENTRIES, LONGEST_ENTRY};
ghost use Rattle.fx_base.specs.declared.name.TheConstants.{LONGEST_NAME};

/// States that a catalogue has at most 256 entries, an entry at most 4,096 bytes, and a name at
/// most 32 bytes.
pub fn limits_are_numbers()
    ensures most_entries { MOST_ENTRIES ≡ 256 }
    ensures longest_entry { LONGEST_ENTRY ≡ 4096 }
    ensures longest_name { LONGEST_NAME ≡ 32 }
{}
