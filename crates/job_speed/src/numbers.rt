//! Numbers and words that follow from a seed.

/// The words that names and descriptions are made of.
const WORDS: [&str; 48] = [
    "id",
    "name",
    "user",
    "order",
    "item",
    "price",
    "total",
    "status",
    "customer",
    "address",
    "product",
    "review",
    "rating",
    "created",
    "updated",
    "count",
    "first",
    "after",
    "node",
    "edge",
    "cursor",
    "page",
    "info",
    "list",
    "filter",
    "sort",
    "region",
    "currency",
    "payment",
    "invoice",
    "account",
    "profile",
    "setting",
    "message",
    "thread",
    "comment",
    "author",
    "tag",
    "category",
    "inventory",
    "warehouse",
    "shipment",
    "tracking",
    "discount",
    "coupon",
    "subscription",
    "organization",
    "permission",
];

/// The same with a capital letter.
const CAPITAL_WORDS: [&str; 24] = [
    "User",
    "Order",
    "Item",
    "Price",
    "Status",
    "Customer",
    "Address",
    "Product",
    "Review",
    "Connection",
    "Edge",
    "Payload",
    "Input",
    "Filter",
    "Account",
    "Profile",
    "Message",
    "Comment",
    "Category",
    "Warehouse",
    "Shipment",
    "Subscription",
    "Organization",
    "Permission",
];

/// A linear congruential generator, with the constants of Knuth's MMIX.
#[derive(Drop)]
pub struct Numbers {
    state: u64,
}

impl Numbers {
    pub fn new(seed: u64) -> Numbers {
        Numbers {
            state: seed.wrapping_mul(0x9e3779b97f4a7c15).wrapping_add(1),
        }
    }

    /// The next number below a limit.
    pub fn below(&mut self, limit: usize) -> usize {
        self.state = self
            .state
            .wrapping_mul(6364136223846793005)
            .wrapping_add(1442695040888963407);
        let number = (self.state >> 33) as usize;
        if limit == 0 { 0 } else { number % limit }
    }

    /// Whether something is so that is so once in so many times.
    pub fn once_in(&mut self, times: usize) -> bool {
        self.below(times) == 0
    }

    pub fn word(&mut self) -> &'static str {
        let index = self.below(WORDS.len());
        match WORDS.get(index) {
            Some(word) => word,
            None => "id",
        }
    }

    pub fn capital_word(&mut self) -> &'static str {
        let index = self.below(CAPITAL_WORDS.len());
        match CAPITAL_WORDS.get(index) {
            Some(word) => word,
            None => "User",
        }
    }
}
