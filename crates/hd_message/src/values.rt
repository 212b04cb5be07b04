//! The values of fields.
ghost use Rattle.std.specs.Prelude.{◌≡◌};
ghost use Rattle.std.specs.Option.{option_copied};
ghost use Rattle.hd_field.specs.Field.{occurrence};
ghost use Rattle.hd_message.specs.Values.{is_yes, unless_empty};
ghost use Rattle.hd_message.specs.Walk.{AreAfter, AreFirst};

use hd_field::{Field, fields};

/// The values of a body's fields: for each identifier that is read, that of the first field with it.
#[derive(Clone, Copy)]
pub(crate) struct Values<'a> {
    /// AA, the patron identifier.
    pub(crate) patron: Option<&'a [u8]>,
    /// AB, the item identifier.
    pub(crate) copy: Option<&'a [u8]>,
    /// AJ, the title identifier.
    pub(crate) title: Option<&'a [u8]>,
    /// AP, the current location.
    pub(crate) branch: Option<&'a [u8]>,
    /// BI, whether the message cancels another.
    pub(crate) cancel: Option<&'a [u8]>,
    /// BS, the pickup location.
    pub(crate) pickup: Option<&'a [u8]>,
    /// BW, the expiration date.
    pub(crate) expiry: Option<&'a [u8]>,
    /// BY, the hold type.
    pub(crate) wanted: Option<&'a [u8]>,
    /// CN, the login user identifier.
    pub(crate) name: Option<&'a [u8]>,
    /// CO, the login password.
    pub(crate) password: Option<&'a [u8]>,
    /// AD, the patron password.
    pub(crate) patron_password: Option<&'a [u8]>,
    /// BP, the first item wanted of a list.
    pub(crate) first_item: Option<&'a [u8]>,
    /// BQ, the last item wanted of a list.
    pub(crate) last_item: Option<&'a [u8]>,
}

impl<'a> Values<'a> {
    /// Takes the value of a field, unless an earlier one has its identifier.
    fn note(&mut self, field: Field<'a>)
        ensures { AreAfter (occurrence field.entry) self.old self.new }
    {
        let value = Some(field.value);
        match &field.code {
            b"AA" => self.patron = self.patron.or(value),
            b"AB" => self.copy = self.copy.or(value),
            b"AJ" => self.title = self.title.or(value),
            b"AP" => self.branch = self.branch.or(value),
            b"BI" => self.cancel = self.cancel.or(value),
            b"BS" => self.pickup = self.pickup.or(value),
            b"BW" => self.expiry = self.expiry.or(value),
            b"BY" => self.wanted = self.wanted.or(value),
            b"CN" => self.name = self.name.or(value),
            b"CO" => self.password = self.password.or(value),
            b"AD" => self.patron_password = self.patron_password.or(value),
            b"BP" => self.first_item = self.first_item.or(value),
            b"BQ" => self.last_item = self.last_item.or(value),
            _ => {}
        }
    }
}

/// The values of the fields of `part`, found in one walk.
pub(crate) fn first_values(part: &[u8]) -> Values<'_>
    ensures { AreFirst part.now result }
{
    let mut values = Values {
        patron: None,
        copy: None,
        title: None,
        branch: None,
        cancel: None,
        pickup: None,
        expiry: None,
        wanted: None,
        name: None,
        password: None,
        patron_password: None,
        first_item: None,
        last_item: None,
    };
    for field in fields(part) {
        values.note(field);
    }
    values
}

/// A value, absent where it is empty.
pub(crate) fn unless_empty(value: Option<&[u8]>) -> Option<&[u8]>
    ensures { option_copied result ≡ unless_empty (option_copied value.entry) }
{
    match value {
        None | Some([]) => None,
        found => found,
    }
}

/// Whether a value of BI says that the message cancels another: it is `Y`.
pub(crate) fn is_yes(value: Option<&[u8]>) -> bool
    ensures { result ≡ is_yes (option_copied value.entry) }
{
    matches!(value, Some(b"Y"))
}
