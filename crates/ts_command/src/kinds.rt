//! The octets that stand for the kinds of commands, and for the forms of purposes.

pub(crate) const ADD_ANCHOR: u8 = 1;

pub(crate) const WITHDRAW_ANCHOR: u8 = 2;

pub(crate) const LOAD_CRL: u8 = 3;

pub(crate) const DROP_CRL: u8 = 4;

pub(crate) const SET_PURPOSES: u8 = 5;

pub(crate) const NOOP: u8 = 6;

pub(crate) const ANY_PURPOSE: u8 = 0;

pub(crate) const LISTED: u8 = 1;
