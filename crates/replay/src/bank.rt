// A bank from a hundred bytes.
use crate::fields::Fields;
use channels::{Channel, Filter};
use detectors::Bank;
use std::array;

pub(crate) fn bank_from(fields: &mut Fields<'_>) -> Bank {
    Bank {
        channels: array::from_fn(|_| channel_from(fields)),
    }
}

fn channel_from(fields: &mut Fields<'_>) -> Channel {
    Channel {
        over: fields.flag(),
        under: fields.flag(),
        analog: filter_from(fields),
        logic: filter_from(fields),
        left: fields.word(),
    }
}

fn filter_from(fields: &mut Fields<'_>) -> Filter {
    Filter {
        filtered: fields.flag(),
        count: fields.word(),
    }
}
