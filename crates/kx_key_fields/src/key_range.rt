//! The range of a key.
use kx_tables::Range;
use std::marker::Model;

/// What becomes of a group that a key doesn't have, as tables may say it; seen as that.
#[derive(Clone, Copy, PartialEq, Eq)]
pub(crate) struct KeyRange {
    range: Range,
}

impl Model for KeyRange {
    ghost use Rattle.std.specs.Prelude.{◌≡◌, true};
    ghost use Rattle.kx_tables.specs.declared.rows.Range.{Range};
    ghost use Rattle.kx_key_fields.specs.Ranges.{is_range};

    ghost Value = { Range };

    ghost view = { λ r. r.range };

    ghost inverse = { λ r. record { range = r } };

    ghost invariant = { λ r. is_range r.range ≡ true };
}

impl KeyRange {
    ghost use Rattle.std.specs.Prelude.{◌≡◌, ◌<◌};
    ghost use Rattle.kx_basics.specs.declared.limits.TheConstants.{MOST_GROUPS};
    ghost use Rattle.kx_tables.specs.Sound.{RangeHolds};
    ghost use Rattle.kx_tables.specs.declared.rows.Range.TheVariants.{Redirect};
    ghost use Rattle.kx_key_fields.specs.AttributeFields.{clamp_if, wrap_if};

    /// Groups are wrapped, or else clamped.
    pub(crate) fn wrap_if(wraps: bool) -> KeyRange
        ensures { result ≡ wrap_if wraps }
    {
        if wraps {
            KeyRange { range: Range::Wrap }
        } else {
            KeyRange {
                range: Range::Clamp,
            }
        }
    }

    /// Groups are clamped, or else wrapped.
    pub(crate) fn clamp_if(clamps: bool) -> KeyRange
        ensures { result ≡ clamp_if clamps }
    {
        KeyRange::wrap_if(!clamps)
    }

    /// Groups are redirected to this one, counted from 0.
    pub(crate) fn redirect(group: u8) -> KeyRange
        requires { group < MOST_GROUPS }
        ensures { result ≡ Redirect group }
    {
        KeyRange {
            range: Range::Redirect(group),
        }
    }

    /// The range.
    pub(crate) fn range(self) -> Range
        ensures value { result ≡ self }
        ensures within { RangeHolds result }
    {
        self.range
    }
}
