//! Texts.

use ff_xdr::Text;

/// A text, which is UTF-8 and has no maximum but that of its length's word.
pub type FreeText<'a> = Text<'a, { u32::MAX }>;
