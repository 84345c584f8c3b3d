//! Calls that are made a second time if they are refused.

/// The value of the call, which is made a second time if it is refused. The first fault goes to standard error, with the name of the
/// call. After a second fault the function returns false.
macro_rules! try_twice {
    ($rt:expr, $name:expr, $call:expr) => {
        match $call {
            Ok(value) => value,
            Err(fault) => {
                crate::printing::tell_fault($rt, $name, &fault);
                match $call {
                    Ok(value) => value,
                    Err(_) => return false,
                }
            }
        }
    };
}

pub(crate) use try_twice;
