//! The commands and their keys, by name.

/// A command, by its name.
#[derive(Clone, Copy)]
pub(crate) enum CommandName {
    Generate,
    Check,
    Extract,
    Demo,
    Convert,
    Audit,
    Spectrum,
}

impl CommandName {
    ghost use Rattle.std.specs.Prelude.{◌≡◌};
    ghost use Rattle.iso_words.specs.Keys.{Finds, name_text, has_key};

    // The command that a word names.
    pub(crate) fn named(word: &str) -> Option<CommandName>
        ensures { Finds (λ name. word.now ≡ name_text name) result }
    {
        if word == "generate" {
            Some(CommandName::Generate)
        } else if word == "check" {
            Some(CommandName::Check)
        } else if word == "extract" {
            Some(CommandName::Extract)
        } else if word == "demo" {
            Some(CommandName::Demo)
        } else if word == "convert" {
            Some(CommandName::Convert)
        } else if word == "audit" {
            Some(CommandName::Audit)
        } else if word == "spectrum" {
            Some(CommandName::Spectrum)
        } else {
            None
        }
    }

    // Whether the command has the key.
    pub(crate) fn has(self, key: Key) -> bool
        ensures { result ≡ has_key self key }
    {
        match self {
            CommandName::Generate => matches!(key, Key::Kind | Key::Dim),
            CommandName::Check => matches!(key, Key::Table),
            CommandName::Extract => matches!(key, Key::Table | Key::Grid | Key::Iso),
            CommandName::Demo => matches!(key, Key::Kind | Key::Dim | Key::Size | Key::Seed),
            CommandName::Convert => matches!(key, Key::Table),
            CommandName::Audit => matches!(key, Key::Mesh),
            CommandName::Spectrum => matches!(key, Key::Kind | Key::Grid | Key::From | Key::To),
        }
    }
}

/// A key, by its name.
#[derive(Clone, Copy)]
pub(crate) enum Key {
    Kind,
    Dim,
    Size,
    Seed,
    Table,
    Grid,
    Iso,
    Mesh,
    From,
    To,
}

impl Key {
    ghost use Rattle.std.specs.Prelude.{◌≡◌, MatchOption};
    ghost use Rattle.iso_words.specs.Keys.{Finds, HasNoKey, HasValue, key_text};

    // The key that a text names.
    fn named(text: &str) -> Option<Key>
        ensures { Finds (λ key. text.now ≡ key_text key) result }
    {
        if text == "kind" {
            Some(Key::Kind)
        } else if text == "dim" {
            Some(Key::Dim)
        } else if text == "size" {
            Some(Key::Size)
        } else if text == "seed" {
            Some(Key::Seed)
        } else if text == "table" {
            Some(Key::Table)
        } else if text == "grid" {
            Some(Key::Grid)
        } else if text == "iso" {
            Some(Key::Iso)
        } else if text == "mesh" {
            Some(Key::Mesh)
        } else if text == "from" {
            Some(Key::From)
        } else if text == "to" {
            Some(Key::To)
        } else {
            None
        }
    }

    // The key of a word, and its value.
    pub(crate) fn with_value(word: &str) -> Option<(Key, &str)>
        ensures { MatchOption result (HasNoKey word.now) (λ pair. HasValue word.now pair.0 pair.1.now) }
    {
        let Some((text, value)) = word.split_once('=') else {
            return None;
        };
        let Some(key) = Key::named(text) else {
            return None;
        };
        Some((key, value))
    }
}
