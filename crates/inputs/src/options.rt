// The options of the questions about a message: a settings store, and the customer whose message it is. Both or neither.
ghost use Rattle.std.specs.Prelude.{◌≡◌, ◌<◌};
ghost use Rattle.inputs.specs.Commands.{is_known, options_of};

use crate::complaints::Complained;
use crate::{arguments, complaints, numbers, words};

// Which argument names the store.
pub fn store(rt: &HostRuntime) -> Option<usize> {
    arguments::value_of(rt, b"--settings")
}

fn customer(rt: &HostRuntime) -> Option<usize> {
    arguments::value_of(rt, b"--customer")
}

fn is_known(option: &[u8]) -> bool
    ensures { result ≡ is_known option.now }
{
    words::is_either(option, b"--settings", b"--customer")
}

// The customer, where the options are given.
pub fn read(rt: &HostRuntime) -> Result<Option<u16>, Complained> {
    check_all(rt)?;
    match (store(rt), customer(rt)) {
        (None, None) => Ok(None),
        (None, Some(_)) => Err(complaints::complain(b"--customer", b"goes with --settings STORE")),
        (Some(_), None) => Err(complaints::complain(b"--settings", b"goes with --customer N")),
        (Some(_), Some(i)) => given_by(numbers::short(rt, i, b"--customer").ok()),
    }
}

// Where the customer is no such number, standard error has said so.
fn given_by(customer: Option<u16>) -> Result<Option<u16>, Complained>
    ensures { result ≡ options_of customer }
{
    customer.map(Some).ok_or(Complained)
}

// Each option is known, has its value, and comes once.
fn check_all(rt: &HostRuntime) -> Result<(), Complained> {
    for i in 1..usize::MAX {
        if !arguments::is_there(rt, i) {
            break;
        }
        if arguments::is_option(rt, i) {
            check(rt, i, arguments::read(rt, i, &mut io::buffer()))?;
        }
    }
    Ok(())
}

fn check(rt: &HostRuntime, i: usize, option: &[u8]) -> Result<(), Complained>
    requires { i < 18446744073709551615 }
{
    if !is_known(option) {
        return Err(complaints::complain(option, b"no such option"));
    }
    if !arguments::is_value(rt, i + 1) {
        return Err(complaints::complain(option, b"its value is missing"));
    }
    if arguments::value_of(rt, option) != Some(i + 1) {
        return Err(complaints::complain(option, b"given twice"));
    }
    Ok(())
}
