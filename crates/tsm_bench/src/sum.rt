use tsdb_types::{Time, Value};

/// How many points there were, and a checksum of them in their order.
#[derive(Clone, Copy, PartialEq, Eq)]
pub struct Sum {
    pub points: usize,
    pub sum: u64,
}

impl Sum {
    pub fn new() -> Self {
        Sum { points: 0, sum: 0 }
    }

    /// The sum of these points under so many keys.
    pub fn of_keys(keys: usize, points: &[(Time, Value)]) -> Self {
        let mut sum = Sum::new();
        for _ in 0..keys {
            sum = sum.with_all(points);
        }
        sum
    }

    fn with_all(self, points: &[(Time, Value)]) -> Self {
        let mut sum = self;
        for (time, value) in points {
            sum = sum.with(*time, *value);
        }
        sum
    }

    /// The sum with one point more.
    pub fn with(self, time: Time, value: Value) -> Self {
        let time = time.get().cast_unsigned();
        Sum {
            points: self.points.wrapping_add(1),
            sum: self
                .sum
                .wrapping_mul(31)
                .wrapping_add(time ^ number_of(value)),
        }
    }
}

fn number_of(value: Value) -> u64 {
    match value {
        Value::Int(number) => number.cast_unsigned(),
        Value::Uint(number) => number,
        Value::Bool(truth) => u64::from(truth),
    }
}
