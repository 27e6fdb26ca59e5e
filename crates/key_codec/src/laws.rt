//! Laws of keys, stated in `specs/Bounds.antt`. Calling them does nothing.
ghost use Rattle.key_codec.specs.Bounds.{KeysCompareAsReferences, EqualKeysAreEqualReferences, NoSubscriptBeginsAnother, KeysBeginAsReferences};
ghost use Rattle.key_codec.specs.Short.{OldKeysCompareAsReferences, EqualOldKeysAreEqualReferences, OldKeysAreLengthened};

/// Keys compare byte by byte as their references do, a beginning first; no two references have one key; the
/// bytes of a subscript begin no other's; a key begins with another's exactly where its reference lies under it.
pub fn keys_are_as_references()
    ensures order { KeysCompareAsReferences }
    ensures one_reference { EqualKeysAreEqualReferences }
    ensures subscripts { NoSubscriptBeginsAnother }
    ensures prefix { KeysBeginAsReferences }
{}

/// Old keys compare byte by byte as their references do, and no two references have one; the bytes that stand for an old
/// key are the key of the same reference.
pub fn old_keys_are_as_references()
    ensures order { OldKeysCompareAsReferences }
    ensures one_reference { EqualOldKeysAreEqualReferences }
    ensures lengthened { OldKeysAreLengthened }
{}
