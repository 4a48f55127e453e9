//! Instances from a text.
ghost use Rattle.std.specs.Prelude.{MatchResult};
ghost use Rattle.klsm_instance.specs.Format.{RefusesInput, IsProblemIn};

use crate::errors::ReadError;
use crate::instance::Instance;
use crate::judge::MOST_THINGS;
use crate::rows::Rows;
use std::alloc::Global;
use std::io::Read;

impl Instance {
    /// Reads an instance. The first row is `capacity,C`, and each further row `value,weight`, one
    /// for each thing. No row is read behind one that is refused.
    pub fn read<R: Read + Drop>(alloc: Global, reader: R) -> Result<Instance, ReadError>
        ensures { MatchResult result (IsProblemIn (R.remaining reader))
            (RefusesInput (R.remaining reader)) }
    {
        let mut rows = Rows::new(alloc, reader);
        let capacity = match rows.read_capacity() {
            Ok(capacity) => capacity,
            Err(why) => return Err(why),
        };
        let mut things = Vec::new(alloc);
        for before in 0..MOST_THINGS + 1 {
            match rows.read_thing(before) {
                Ok(Some(thing)) => {
                    let Ok(()) = things.push(thing) else {
                        return Err(ReadError::NoMemory);
                    };
                }
                Ok(None) => {
                    return match Instance::new(alloc, capacity, things) {
                        Ok(instance) => Ok(instance),
                        Err(_) => Err(ReadError::NoMemory),
                    };
                }
                Err(why) => return Err(why),
            }
        }
        unreachable!()
    }
}
