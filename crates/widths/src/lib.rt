// No code: why the labels of a table are as many as the greatest cost of its tag, and few.

#![tactic(auto)]
