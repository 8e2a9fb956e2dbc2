//! Tests of the leaves.
mod of_aes_block;
mod of_board;
mod of_bonsai_tree;
mod of_collision_witness;
mod of_commit_regs;
mod of_counter_tree;
mod of_line_seal;
mod of_mac_tags;
mod of_meta_cache;
mod of_page_reencrypt;
mod of_pmem_base;
mod of_seal_ledger;
mod of_shadow_tables;
mod of_split_counters;
mod of_stop_loss;
mod of_suite;
mod of_write_ports;
